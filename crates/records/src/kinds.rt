// What a kind byte says of its record. Only `shape` knows the kinds' numbers; all else goes by the form.
ghost use Rattle.std.specs.Prelude.{◌≡◌};
ghost use Rattle.records.specs.Kinds.{shaped, shape_of, instruction_form};

#[derive(Clone, Copy, PartialEq, Eq)]
pub enum Form {
    StaticWidth,
    DynamicWidth,
    Reset,
    Measurement,
    Gate,
    AngledGate,
    TwoLineGate,
    AngledTwoLineGate,
    Reuse,
}

// The form of a record, the length of its body and the count of its operands.
#[derive(Clone, Copy)]
pub struct Outline {
    pub form: Form,
    pub body: usize,
    pub operands: usize,
}

fn known(form: Form, body: usize, operands: usize) -> Option<Outline>
    ensures { result ≡ shaped form body operands }
{
    Some(Outline {
        form,
        body,
        operands,
    })
}

// The shape of a kind, where document 01 knows it.
pub fn shape(kind: u8) -> Option<Outline>
    ensures { result ≡ shape_of kind }
{
    match kind {
        0x01 => known(Form::StaticWidth, 1, 1),
        0x02 => known(Form::DynamicWidth, 2, 2),
        0x10 => known(Form::Reset, 1, 1),
        0x11 => known(Form::Measurement, 2, 2),
        0x60 => known(Form::Reuse, 2, 2),
        0x20..=0x2F => known(Form::Gate, 1, 1),
        0x30..=0x3F => known(Form::AngledGate, 9, 1),
        0x40..=0x4F => known(Form::TwoLineGate, 2, 2),
        0x50..=0x5F => known(Form::AngledTwoLineGate, 10, 2),
        _ => None,
    }
}

// Whether a form is an instruction's.
pub fn is_instruction(form: Form) -> bool
    ensures { result ≡ instruction_form form }
{
    !matches!(form, Form::StaticWidth | Form::DynamicWidth | Form::Reuse)
}
