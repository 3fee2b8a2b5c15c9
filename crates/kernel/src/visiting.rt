// A look at a kernel's intake, or at its herald, from outside.
ghost use Rattle.std.specs.Prelude.{◌≡◌};
ghost use Rattle.ports.specs.History.{SameNames, AllFit, RoomStays};
ghost use Rattle.kernel.specs.Heralds.{SameHerald};

use crate::stepping::Kernel;
use blocks::Disk;
use ports::{Herald, Intake};

/// What is done to an intake between two steps, beside the kernel's own calls: it gives no kept
/// place up, and changes no history. Each end of a ring learns so what the other did.
pub trait Visit<I: Intake> {
    ghost use Rattle.std.specs.Prelude.{◌≡◌};

    /// What the visitor brings back.
    type Gift;

    /// What it asks of the intake.
    ghost asks: { Self → I → Type 0 };

    /// What it tells of the intake as it was and as it is.
    ghost tells: { Self → I → I → Self.Gift → Type 0 };

    /// Visits the intake.
    fn visit(self, intake: &mut I) -> Self::Gift
        requires { asks self intake.old }
        ensures tells { tells self intake.old intake.new result }
        ensures processes { I.process_count intake.new ≡ I.process_count intake.old }
        ensures names { SameNames (I.name intake.old) (I.name intake.new) }
        ensures room { RoomStays (I.side intake.old) (I.side intake.new) }
        ensures fits { AllFit (I.fits intake.old) (I.fits intake.new) };
}

/// The same where another value changes, too, which stays where it is.
pub trait VisitWith<I: Intake> {
    ghost use Rattle.std.specs.Prelude.{◌≡◌};

    /// The other value.
    type Other;

    /// What it asks of the intake and of the other value.
    ghost asks: { Self → I → Self.Other → Type 0 };

    /// What it tells of the intake as it was and as it is, and of the other value.
    ghost tells: { Self → I → I → Self.Other → Self.Other → Type 0 };

    /// Visits the intake.
    fn visit_with(self, intake: &mut I, other: &mut Self::Other)
        requires { asks self intake.old other.old }
        ensures tells { tells self intake.old intake.new other.old other.new }
        ensures processes { I.process_count intake.new ≡ I.process_count intake.old }
        ensures names { SameNames (I.name intake.old) (I.name intake.new) }
        ensures room { RoomStays (I.side intake.old) (I.side intake.new) }
        ensures fits { AllFit (I.fits intake.old) (I.fits intake.new) };
}

/// What is asked of a herald between two steps, beside the kernel's own calls.
pub trait Consult<H: Herald> {
    ghost use Rattle.std.specs.Prelude.{◌≡◌};

    /// Another value, which may change.
    type Other;

    /// What it asks of the herald and of the other value.
    ghost asks: { Self → H → Self.Other → Type 0 };

    /// What it tells of the herald as it was, and of the other value.
    ghost tells: { Self → H → Self.Other → Self.Other → Type 0 };

    /// Consults the herald.
    fn consult(self, herald: &mut H, other: &mut Self::Other)
        requires { asks self herald.old other.old }
        ensures tells { tells self herald.old other.old other.new }
        ensures same { SameHerald H.Herald herald.old herald.new };
}

impl<D: Disk, I: Intake, H: Herald> Kernel<D, I, H> {
    /// Consults the herald. It takes no step, and nothing but the other value changes.
    pub fn consult<V: Consult<H>>(&mut self, question: V, other: &mut V::Other)
        requires { V.asks question self.old.herald other.old }
        ensures tells { V.tells question self.old.herald other.old other.new }
        ensures herald { SameHerald H.Herald self.old.herald self.new.herald }
        ensures same { self.new ≡ record self.old { herald = self.new.herald } }
    {
        question.consult(&mut self.herald, other);
    }

    /// Lets a visitor to the intake. It takes no step, and nothing but the intake changes.
    pub fn visit<V: Visit<I>>(&mut self, visitor: V) -> V::Gift
        requires { V.asks visitor self.old.intake }
        ensures tells { V.tells visitor self.old.intake self.new.intake result }
        ensures names { SameNames (I.name self.old.intake) (I.name self.new.intake) }
        ensures same { self.new ≡ record self.old { intake = self.new.intake } }
    {
        visitor.visit(&mut self.intake)
    }

    /// Lets a visitor to the intake, as `visit`, together with another value.
    pub fn visit_with<V: VisitWith<I>>(&mut self, visitor: V, other: &mut V::Other)
        requires { V.asks visitor self.old.intake other.old }
        ensures tells { V.tells visitor self.old.intake self.new.intake other.old other.new }
        ensures names { SameNames (I.name self.old.intake) (I.name self.new.intake) }
        ensures same { self.new ≡ record self.old { intake = self.new.intake } }
    {
        visitor.visit_with(&mut self.intake, other);
    }
}
