// Who hears of an image's faults.
ghost use Rattle.std.specs.Prelude.{◌∷◌, ◌++◌, [], List};
ghost use Rattle.model.specs.declared.types.fault.CheckFault.{CheckFault as SomeCheckFault};

use model::types::CheckFault;

/// Hears of the faults of an image, one by one, while the image is walked over.
pub trait HearsFaults {
    /// What it was, and is once it heard of these faults, in their order.
    ghost hears: { Self → List SomeCheckFault → Self → Type 0 };

    /// Hears of a fault.
    fn hear(&mut self, fault: CheckFault)
        ensures { hears self.old (fault ∷ []) self.new };

    /// It may hear of none.
    ghost hears_none: { (a : Self) → hears a [] a };

    /// What it hears of behind others it hears of with them.
    ghost hears_more: { (a b c : Self) (front back : List SomeCheckFault) → hears a front b
        → hears b back c → hears a (front ++ back) c };
}
