// A name (UID), read in one pass.
ghost use Rattle.std.specs.Prelude.{◌≡◌, Some};
ghost use Rattle.names.specs.Name.{name_ok};
ghost use Rattle.names.specs.Private.OnePass.{next as next_part};

// What has been read of a name's present component.
#[derive(Clone, Copy)]
enum Part {
    Start,
    Zero,
    Digits,
}

// What has been read with one byte more; None where no name goes on so.
fn next(part: Part, b: u8) -> Option<Part>
    ensures { result ≡ next_part (Some part) b }
{
    match (part, b) {
        (Part::Zero | Part::Digits, b'.') => Some(Part::Start),
        (Part::Start, b'0') => Some(Part::Zero),
        (Part::Start, b'1'..=b'9') => Some(Part::Digits),
        (Part::Digits, b'0'..=b'9') => Some(Part::Digits),
        _ => None,
    }
}

// Whether s is a name: 1 to 64 bytes of digits and dots, no component empty or with a needless zero in front.
pub fn name_ok(s: &[u8]) -> bool
    ensures { result ≡ name_ok s.now }
{
    if 64 < s.len() {
        return false;
    }
    let mut part = Part::Start;
    for b in s {
        let Some(read) = next(part, *b) else {
            return false;
        };
        part = read;
    }
    match part {
        Part::Start => false,
        Part::Zero => true,
        Part::Digits => true,
    }
}
