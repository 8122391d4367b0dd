//! What follows of the steps so far: the headline.

use crate::live::LivePort;
use crate::port::Port;

impl Port {
    ghost use Rattle.std.specs.Prelude.{◌≡◌, ◌≤◌, List, length, reverse};
    ghost use Rattle.history.specs.Opening.{Origin};
    ghost use Rattle.history.specs.Tcg.{tcg};
    ghost use Rattle.port_history.specs.declared.step.Step.{Step};
    ghost use Rattle.port_history.specs.Refusals.{most_steps};
    ghost use Rattle.port_history.specs.Steps.{trace, audit};
    ghost use Rattle.headline.specs.Denials.{IsAudited};
    ghost use Rattle.headline.specs.Methods.{AreJudged};
    ghost use Rattle.headline.specs.NoTrace.{AreHidden, AreForgotten};
    ghost use Rattle.headline.specs.Transfers.{AreServed};
    ghost use Rattle.port.specs.Agreement.{PortAgrees};

    /// The headline, of the steps so far. It does nothing: what it is for is its contract.
    ///
    /// `transfers`: each transfer that the drive answered was served exactly where every range that it touches permits
    /// it by the rows in force at its last acceptance, and what a reset stopped moved nothing. `methods`: each call of
    /// a right shape with valid values took effect, and each column was listed, exactly where an access entry that
    /// names it holds. `hidden`, `forgotten`: nothing was made from a Set of an open or aborted transaction, but in its
    /// session's own view. `audited`: the log has one line for each denial, in the words of what denied it, and no
    /// other line. `room`: the history has no more steps than it has room for.
    pub fn headline(&self)
        ensures transfers { (o : Origin) (list : List Step) → PortAgrees self.now o list
            → AreServed tcg o list }
        ensures methods { (o : Origin) (list : List Step) → PortAgrees self.now o list
            → AreJudged o list }
        ensures hidden { (o : Origin) (list : List Step) → PortAgrees self.now o list
            → AreHidden tcg o list }
        ensures forgotten { (o : Origin) (list : List Step) → PortAgrees self.now o list
            → AreForgotten tcg o list }
        ensures audited { (o : Origin) (list : List Step) → PortAgrees self.now o list
            → IsAudited o list }
        ensures log { (o : Origin) (list : List Step) → PortAgrees self.now o list
            → self.now.audit ≡ reverse (audit (trace o list)) }
        ensures room { length self.now.history ≤ most_steps }
    {
        let _history = &self.history;
    }
}

impl LivePort {
    ghost use Rattle.std.specs.Prelude.{List};
    ghost use Rattle.history.specs.Opening.{Origin};
    ghost use Rattle.history.specs.Tcg.{tcg};
    ghost use Rattle.port_history.specs.declared.step.Step.{Step};
    ghost use Rattle.headline.specs.Denials.{IsAudited};
    ghost use Rattle.headline.specs.Methods.{AreJudged};
    ghost use Rattle.headline.specs.NoTrace.{AreHidden, AreForgotten};
    ghost use Rattle.headline.specs.Transfers.{AreServed};
    ghost use Rattle.port.specs.Live.{LiveAgrees};

    /// The headline, of the steps so far, as [`Port::headline`] says it. Nobody keeps these steps.
    pub fn headline(&self)
        ensures transfers { (o : Origin) (list : List Step) → LiveAgrees self.now o list
            → AreServed tcg o list }
        ensures methods { (o : Origin) (list : List Step) → LiveAgrees self.now o list
            → AreJudged o list }
        ensures hidden { (o : Origin) (list : List Step) → LiveAgrees self.now o list
            → AreHidden tcg o list }
        ensures forgotten { (o : Origin) (list : List Step) → LiveAgrees self.now o list
            → AreForgotten tcg o list }
        ensures audited { (o : Origin) (list : List Step) → LiveAgrees self.now o list
            → IsAudited o list }
    {}
}
