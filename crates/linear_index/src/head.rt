// The first place of a bucket, in four bytes.
ghost use Rattle.std.specs.Prelude.{◌≡◌, ℕ, ◌<◌, ◌-◌, ◌^◌, Some};

use std::marker::Model;

// A number that is no place's.
const NONE: u32 = u32::MAX;

// The first place of a bucket, if there is one. An `Option<u32>` would take twice the memory.
#[derive(Clone, Copy)]
pub(crate) struct Head {
    code: u32,
}

impl Model for Head {
    ghost use Rattle.std.specs.Prelude.{ℕ, Option};
    ghost use Rattle.linear_index.specs.Heads.{code_back, code_of, place_by};

    ghost Value = { Option ℕ };

    ghost view = { λ h. place_by h.code };

    ghost inverse = { λ o. record { code = code_of o } };

    ghost inverse_ok = { λ a h i. record { code = code_back a.code i } };
}

impl Head {
    // That of a bucket which begins with this place, or is empty.
    pub(crate) fn of(place: Option<u32>) -> Head
        requires { (p : ℕ) → place ≡ Some p → p < 2 ^ 32 - 1 }
        ensures { result ≡ place }
    {
        match place {
            Some(place) => Head { code: place },
            None => Head { code: NONE },
        }
    }

    // The place.
    pub(crate) fn place(self) -> Option<u32>
        ensures { result ≡ self }
    {
        if self.code == NONE {
            None
        } else {
            Some(self.code)
        }
    }
}
