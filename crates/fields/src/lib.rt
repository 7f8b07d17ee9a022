// The two counts of fields (docs/RULES.md, "Picture area" and "Film"). A number of one is never a number of the other:
// `odd_even` is the one way across, and it asks top_field_first.
#![tactic(auto)]

ghost use Rattle.std.specs.Prelude.{◌≡◌};
ghost use Rattle.fields.specs.Sides.{side};

// A display field of this picture, counted from 1. It is not the odd or the even field of a frame.
#[derive(Clone, Copy, PartialEq, Eq)]
pub struct DisplayField(pub u8);

// A field of a frame: 1 odd, 0 even. It is not a display field's number.
#[repr(C)]
#[derive(Clone, Copy)]
pub struct OddEven(pub u8);

// Which field of a frame a display field is, in a picture with that top_field_first.
pub fn odd_even(field: DisplayField, top_field_first: bool) -> OddEven
    ensures { result ≡ record { 0 = side top_field_first field.0 } }
{
    if top_field_first {
        return OddEven(field.0 % 2);
    }
    OddEven(1 - field.0 % 2)
}
