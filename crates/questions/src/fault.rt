// Why a call refuses.
ghost use Rattle.std.specs.Prelude.{◌≡◌};
ghost use Rattle.questions.specs.Questions.{Refusal};

/// A reason to refuse. A crate may have its own type of reasons; each reason has one number.
pub trait Fault {
    // What the refusal tells: its number, and the values that it carries.
    ghost told: { Self → Refusal };

    /// The number of the refusal. Reports name refusals by their numbers; code tells them apart by their enums.
    fn number(&self) -> u8
        ensures { result ≡ (told self.now).number };
}
