// The type of names: 1 to 16 of a-z and 0-9. Events, parameters and the values of parameters are named so.
ghost use Rattle.std.specs.Prelude.{◌≡◌, true, string_bytes};
ghost use Rattle.text.specs.NameForms.{name_form};

#[derive(PartialEq, Eq, Drop)]
pub struct Name {
    pub(crate) text: String,
    ghost form: { name_form (string_bytes text) ≡ true },
}
