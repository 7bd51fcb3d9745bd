// What a byte is: a blank, a flag, an operator.
ghost use Rattle.std.specs.Prelude.{◌≡◌};
ghost use Rattle.names.specs.Grammar.{blank, flag};
ghost use Rattle.names_reader.specs.Inside.{operates};

pub(crate) const COMMA: u8 = b',';

pub(crate) const EQUALS: u8 = b'=';

const PLUS: u8 = b'+';

pub(crate) const DASH: u8 = b'-';

// The flags of the effective and of the inheritable set; that of the permitted set is the third.
pub(crate) const FLAG_E: u8 = b'e';

pub(crate) const FLAG_I: u8 = b'i';

const FLAG_P: u8 = b'p';

// A space, a tab or a newline.
pub(crate) fn is_blank(b: u8) -> bool
    ensures { result ≡ blank b }
{
    matches!(b, b' ' | b'\t' | b'\n')
}

pub(crate) fn is_flag(b: u8) -> bool
    ensures { result ≡ flag b }
{
    matches!(b, FLAG_E | FLAG_I | FLAG_P)
}

pub(crate) fn is_operator(b: u8) -> bool
    ensures { result ≡ operates b }
{
    matches!(b, EQUALS | PLUS | DASH)
}
