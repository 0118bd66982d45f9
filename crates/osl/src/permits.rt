// Which events a permit forbids.
ghost use Rattle.std.specs.Prelude.{◌≡◌};
ghost use Rattle.osl.specs.Matching.{names_forbid, values_forbid};

use crate::event::{Class, Event};
use crate::matching::{has_all, has_stray, is_among};
use crate::row::{PermittedNames, PermittedValues};

impl PermittedNames {
    pub fn forbids(&self, event: &Event) -> bool
        ensures { result ≡ names_forbid self.now event.now }
    {
        event.class == Class::Use
            && !is_among(&event.name, &self.names)
            && has_all(&event.params, &self.having)
    }
}

impl PermittedValues {
    pub fn forbids(&self, event: &Event) -> bool
        ensures { result ≡ values_forbid self.now event.now }
    {
        self.event == event.name
            && has_all(&event.params, &self.having)
            && has_stray(&event.params, &self.param, &self.values)
    }
}
