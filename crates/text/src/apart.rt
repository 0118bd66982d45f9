// Lists of which no two elements clash.
ghost use Rattle.std.specs.Prelude.{◌≡◌, Bool};
ghost use Rattle.text.specs.Lists.{apart};

// A question to two elements, with yes and no as answers. A closure would have to come with a condition, that it may be
// called; a question may be put to any two elements.
pub trait Compares<T> {
    ghost compares: { Self → T → T → Bool };

    fn compare(&self, a: &T, b: &T) -> bool
        ensures { result ≡ compares self.now a.now b.now };
}

// Whether no element and a later one answer yes.
pub fn are_apart<T, Q: Compares<T>>(items: &[T], question: &Q) -> bool
    ensures { result ≡ apart (Q.compares question.now) items.now }
{
    let mut left = items;
    while let Some((first, rest)) = left.split_first() {
        if rest.iter().any(|later| question.compare(first, later)) {
            return false;
        }
        left = rest;
    }
    true
}
