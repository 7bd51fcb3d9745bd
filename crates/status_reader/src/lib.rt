// The reader of a captured /proc/PID/status.
//
// The seven wanted lines are read one after the other, each at the place past the last, and the lines between them are passed over. The form itself is
// defined in the crate `status`; the table that digits are read by is made once and lent. Every function is proved, for every argument: no public one
// has a `requires`. The crate assumes nothing.
#![tactic(auto)]

ghost use Rattle.std.specs.Prelude.{◌≡◌, [], ◌∷◌};
ghost use Rattle.status.specs.Lines.{set_form};
ghost use Rattle.status.specs.Reading.{read_status};
ghost use Rattle.status_reader.specs.Inside.{DueAhead, one};

mod lines;
mod places;
mod values;

use credentials::Sets;
use lines::{flag_line, ids_line, set_line};
use places::Place;
use status::{ReadError, Status};
use values::Digits;

// What a status text shows, or the line at which it is malformed.
pub fn read_status(text: &[u8]) -> Result<Status, ReadError>
    ensures { result ≡ read_status text.now }
{
    let digits = Digits::new();
    let mut place = Place::start(text);
    let uids = place.due(|line| ids_line(line, &digits))?;
    let inheritable = read_set(&mut place, b"CapInh:", &digits)?;
    let permitted = read_set(&mut place, b"CapPrm:", &digits)?;
    let effective = read_set(&mut place, b"CapEff:", &digits)?;
    let bounding = read_set(&mut place, b"CapBnd:", &digits)?;
    let ambient = read_set(&mut place, b"CapAmb:", &digits)?;
    let nnp = place.due(|line| flag_line(line, &digits))?;
    if place.next_wanted().is_some() {
        return Err(ReadError::Malformed(place.passed));
    }
    let sets = Sets {
        permitted,
        inheritable,
        effective,
        bounding,
        ambient,
    };
    Ok(Status {
        uids,
        sets,
        nnp: nnp == 1,
    })
}

// The set of the line of a name, which is due.
fn read_set(place: &mut Place<'_>, name: &[u8], digits: &Digits) -> Result<u64, ReadError>
    ensures { DueAhead one result place.old.rest.now place.old.passed (record { name = name.now; forms = set_form ∷ [] }) place.new.rest.now place.new.passed }
{
    place.due(|line| set_line(line, name, digits))
}
