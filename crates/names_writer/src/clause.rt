// The clause of one capability, where it has any flag: what parts it from the clause before it, its name, `=` and its flags.
ghost use Rattle.std.specs.Prelude.{◌≡◌, cond, [], ◌∷◌, ◌+◌, ◌≤◌, ◌||◌, eqb, length};
ghost use Rattle.names_writer.specs.Inside.{clause_at, flags_of, flags_put, Put};

use capabilities::sets::has;
use line_writer::write_bytes;
use names::Sets;

// The flags of one capability: which sets have it.
#[derive(Clone, Copy)]
struct Flags {
    effective: bool,
    inheritable: bool,
    permitted: bool,
}

impl Flags {
    // The flags of the capability n.
    fn of(held: Sets, n: u64) -> Flags
        ensures { result ≡ flags_of held n }
    {
        Flags {
            effective: has(held.effective, n),
            inheritable: has(held.inheritable, n),
            permitted: has(held.permitted, n),
        }
    }

    fn any(self) -> bool
        ensures { result ≡ self.effective || (self.inheritable || self.permitted) }
    {
        // (`|`, and not `||`: one test and not three.)
        self.effective | self.inheritable | self.permitted
    }

    #[tactic(auto, using(crate::proofs::Texts::flags_length))]
    fn count(self) -> usize
        ensures { result ≡ length (flags_put self) }
    {
        usize::from(self.effective) + usize::from(self.inheritable) + usize::from(self.permitted)
    }

    // The flags into buf at the position at, in the order e, i, p: the position past them.
    #[tactic(auto, using(crate::proofs::Texts::flags_lengths))]
    fn write(self, buf: &mut [u8], at: usize) -> usize
        requires { at + length (flags_put self) ≤ length buf.old }
        ensures { Put buf.old at (flags_put self) buf.new result }
    {
        let p = write_if(buf, at, self.effective, b'e');
        let q = write_if(buf, p, self.inheritable, b'i');
        write_if(buf, q, self.permitted, b'p')
    }
}

// How long the clause of the capability number, which has this name, is at the position at.
pub(crate) fn clause_length(at: usize, name: &[u8], held: Sets, number: u64) -> usize
    requires { length (clause_at (eqb at 0) held number name.now) ≤ 748 }
    ensures { result ≡ length (clause_at (eqb at 0) held number name.now) }
{
    let flags = Flags::of(held, number);
    if flags.any() {
        return usize::from(at != 0) + name.len() + 1 + flags.count();
    }
    0
}

// The clause of the capability number, which has this name, into buf at the position at: the position past it.
pub(crate) fn write_clause(buf: &mut [u8], at: usize, name: &[u8], held: Sets, number: u64) -> usize
    requires { at + length (clause_at (eqb at 0) held number name.now) ≤ length buf.old }
    ensures { Put buf.old at (clause_at (eqb at 0) held number name.now) buf.new result }
{
    let flags = Flags::of(held, number);
    if flags.any() {
        let p = write_if(buf, at, at != 0, b' ');
        let q = write_bytes(buf, p, name);
        let r = write_bytes(buf, q, b"=");
        return flags.write(buf, r);
    }
    at
}

// A byte, where it is present.
fn write_if(buf: &mut [u8], at: usize, present: bool, byte: u8) -> usize
    requires { at + length (cond present (byte ∷ []) []) ≤ length buf.old }
    ensures { Put buf.old at (cond present (byte ∷ []) []) buf.new result }
{
    if present {
        buf[at] = byte;
        return at + 1;
    }
    at
}
