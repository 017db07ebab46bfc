ghost use Rattle.std.specs.Prelude.{◌≡◌};
ghost use Rattle.rules.specs.Texts.{Read, set_at_front, sets_of, Sets};

// The sets that a text names. They need not make a rule: birth from nothing is none.
#[derive(Clone, Copy, PartialEq, Eq, Debug)]
pub struct RuleSets {
    pub born: u16,
    pub stays: u16,
}

impl RuleSets {
    // Reads a text as `b3s23`: `b`, digits 0 to 8 that increase, `s`, and such digits again. Either set may be empty.
    pub fn parse(text: &[u8]) -> Option<RuleSets>
        ensures sets { result ≡ sets_of text.now }
        ensures text { Sets text.now result }
    {
        let (born, rest) = read_set(text.strip_prefix(b"b")?);
        let (stays, rest) = read_set(rest.strip_prefix(b"s")?);
        rest.is_empty().then_some(RuleSets { born, stays })
    }
}

// A set, and what follows its digits: takes each digit where it is the next byte, in increasing order.
fn read_set(text: &[u8]) -> (u16, &[u8])
    ensures { set_at_front text.now ≡ record { set = result.0; rest = result.1.now } }
{
    let mut bits = 0;
    let mut rest = text;
    for n in 0..9 {
        if let Some(after) = rest.strip_prefix(&[b'0' + n]) {
            bits += 1 << n;
            rest = after;
        }
    }
    (bits, rest)
}
