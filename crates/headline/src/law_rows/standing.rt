//! Each clause of the laws of `history` and of `port_history`, from the call that says it: one that is taken out fails here.

ghost use Rattle.history.specs.Agreement.{ShowLaw, FreshLaw, FactoryLaw, OpeningLaw};
ghost use Rattle.history.specs.Audit.{ActAuditLaw};
ghost use Rattle.history.specs.Bounds.{CellLaw, ColumnLaw, TableLaw, ResponseLaw, SectorLaw};
ghost use Rattle.history.specs.DenialLaws.{DenialLaw};
ghost use Rattle.history.specs.Deeds.{DeedLaw, OwnerLaw, LifeLaw, ActivateLaw, RevertLaw};
ghost use Rattle.history.specs.KeptCalls.{CallLaw as KeptCallLaw, StartLaw};
ghost use Rattle.history.specs.KeptSessions.{SessionsOpeningLaw, SessionsLaw, NamedLaw};
ghost use Rattle.history.specs.KeptStore.{StoreOpeningLaw, KnownRowsLaw, StoreLaw, StoreReadLaw};
ghost use Rattle.history.specs.MethodLaws.{CallLaw, ActEffectLaw};
ghost use Rattle.history.specs.NoTrace.{ActOpenLaw, ElsewhereLaw, ActAbortLaw, IsByOwnView};
ghost use Rattle.history.specs.Quiet.{IsQuiet, ReadsTags};
ghost use Rattle.history.specs.Tcg.{tcg};
ghost use Rattle.history.specs.TransferLaws.{VerdictLaw, HeldLaw, TagLaw, ServiceLaw, WriteLaw, UnreachedLaw, TrimLaw};
ghost use Rattle.history.specs.TriesLaw.{TriesLaw, LimitLaw};
ghost use Rattle.port_history.specs.Laws.{IsForPorts, NeverMixes, FailureLaw, RegisterLaw, AnswerLaw, TakeLaw, OwnLaw, FedLaw, FullLaw};

use history::{
    laws_of_agreement, laws_of_attempts, laws_of_bounds, laws_of_deeds, laws_of_denials,
    laws_of_items, laws_of_methods, laws_of_sessions, laws_of_store, laws_of_transactions,
    laws_of_transfers,
};
use port_history::laws_of_steps;

/// Items, transfers and denials.
pub fn transfers_stand()
    ensures quiet { IsQuiet tcg }
    ensures tags { ReadsTags tcg }
    ensures views { IsByOwnView tcg }
    ensures verdict { VerdictLaw }
    ensures held { HeldLaw }
    ensures slots { TagLaw }
    ensures served { ServiceLaw }
    ensures written { WriteLaw }
    ensures unreached { UnreachedLaw }
    ensures trimmed { TrimLaw }
    ensures reasons { DenialLaw }
    ensures lines { ActAuditLaw }
{
    laws_of_items();
    laws_of_transfers();
    laws_of_denials();
}

/// Transactions, deeds, attempts and methods.
pub fn deeds_stand()
    ensures unseen { ActOpenLaw }
    ensures elsewhere { ElsewhereLaw }
    ensures aborted { ActAbortLaw }
    ensures deeds { DeedLaw }
    ensures owners { OwnerLaw }
    ensures life { LifeLaw }
    ensures activate { ActivateLaw }
    ensures revert { RevertLaw }
    ensures tries { TriesLaw }
    ensures limit { LimitLaw }
    ensures called { CallLaw }
    ensures effect { ActEffectLaw }
    ensures judged { KeptCallLaw }
{
    laws_of_transactions();
    laws_of_deeds();
    laws_of_attempts();
    laws_of_methods();
}

/// What is kept: sessions, bounds, agreement, a store.
pub fn kept_stands()
    ensures no_sessions { SessionsOpeningLaw }
    ensures sessions { SessionsLaw }
    ensures named { NamedLaw }
    ensures started { StartLaw }
    ensures cells { CellLaw }
    ensures columns { ColumnLaw }
    ensures table { TableLaw }
    ensures responses { ResponseLaw }
    ensures sectors { SectorLaw }
    ensures shown { ShowLaw }
    ensures fresh { FreshLaw }
    ensures factory { FactoryLaw }
    ensures opened { OpeningLaw }
    ensures new_store { StoreOpeningLaw }
    ensures known { KnownRowsLaw }
    ensures store { StoreLaw }
    ensures read { StoreReadLaw }
{
    laws_of_sessions();
    laws_of_bounds();
    laws_of_agreement();
    laws_of_store();
}

/// Steps of a port.
pub fn steps_stand()
    ensures ports { IsForPorts tcg }
    ensures unmixed { NeverMixes }
    ensures failure { FailureLaw }
    ensures registers { RegisterLaw }
    ensures answered { AnswerLaw }
    ensures taken { TakeLaw }
    ensures own { OwnLaw }
    ensures fed { FedLaw }
    ensures full { FullLaw }
{
    laws_of_steps();
}
