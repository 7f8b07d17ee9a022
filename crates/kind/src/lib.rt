// Which units of an area are ours (docs/RULES.md, "Picture area"). Every other unit is foreign.
#![tactic(auto)]

ghost use Rattle.std.specs.Prelude.{◌≡◌};
ghost use Rattle.kind.specs.Ours.{ours as Ours·ours, typed as Ours·typed, group_type, identified as Ours·identified};

// The kinds of caption unit.
#[derive(Clone, Copy)]
pub enum Kind {
    // SCTE 20 picture user data (001, 5.4): user_data_type_code 03, where no data group begins (003, Table 1).
    Scte20,
    // ATSC picture user data (003, Table 3): ATSC_identifier, then user_data_type_code 03.
    Ga94,
}

// Whether a unit with this body is ours, of that kind.
pub fn ours(body: &[u8], kind: Kind) -> bool
    ensures { result ≡ Ours·ours kind body.now }
{
    match kind {
        Kind::Scte20 => typed(body),
        Kind::Ga94 => identified(body),
    }
}

fn typed(body: &[u8]) -> bool
    ensures { result ≡ Ours·typed body.now }
{
    if body.len() == 0 {
        return false;
    }
    if body[0] != 3 {
        return false;
    }
    // Cut off behind 03 it is ours, and refused.
    if body.len() == 1 {
        return true;
    }
    !group_type(body[1])
}

// Whether user_data_type is 09 or 0A: behind user_data_length 03 it begins a data group of another syntax (003, Table 1).
pub fn group_type(user_data_type: u8) -> bool
    ensures { result ≡ group_type user_data_type }
{
    user_data_type == 0x09 || user_data_type == 0x0A
}

fn identified(body: &[u8]) -> bool
    ensures { result ≡ Ours·identified body.now }
{
    if body.len() < 4 {
        return false;
    }
    if body[0] != 0x47 {
        return false;
    }
    if body[1] != 0x41 {
        return false;
    }
    if body[2] != 0x39 {
        return false;
    }
    if body[3] != 0x34 {
        return false;
    }
    // Cut off behind the identifier it is ours, and refused.
    if body.len() == 4 {
        return true;
    }
    body[4] == 3
}
