//! What follows from the definitions alone, and their limits.

ghost use Rattle.std.specs.Prelude.{◌≡◌, ◌↔◌, IsTrue};
ghost use Rattle.port_history.specs.Laws.{NeverMixes, FailureLaw, RegisterLaw, AnswerLaw, TakeLaw, OwnLaw, FedLaw, FullLaw, IsForPorts};
ghost use Rattle.history.specs.Tcg.{tcg};
ghost use Rattle.port_history.specs.Refusals.{most_steps};
ghost use Rattle.port_history.specs.Requests.{most_blocks};
ghost use Rattle.port_history.specs.contracts.request.AnswerPartialEq.TheImpl as answers;
ghost use Rattle.port_history.specs.contracts.request.RequestPartialEq.TheImpl as asked;
ghost use Rattle.port_history.specs.contracts.step.EntryPartialEq.TheImpl as entries;
ghost use Rattle.port_history.specs.contracts.step.StepPartialEq.TheImpl as steps;
ghost use Rattle.port_history.specs.declared.request.Answer.{Answer};
ghost use Rattle.port_history.specs.declared.request.Request.{Request};
ghost use Rattle.port_history.specs.declared.request.TheConstants as requests;
ghost use Rattle.port_history.specs.declared.step.Entry.{Entry};
ghost use Rattle.port_history.specs.declared.step.Step.{Step};

/// Laws of the definitions, over every origin and every lawful list of steps.
///
/// `ports`: the items of this drive are quiet, and read each FIS of a port as its command. `unmixed`: the port never mixes queues. The drive refuses no act of the list for mixing queued
/// commands with others, nor for a fault of its FIS: each comes to its addresses and the policy, or
/// reads the log page of a failed queue. `failure`: the drive's queue has failed exactly while the
/// port has, and its log page names the tag. `registers`: PxSACT has exactly the queued tags that
/// are Issued or Accepted, PxCI those that are Issued, and the failed tag. `answered`: each tag
/// that is Answered has an answer, whatever such items do. `taken`: a client takes only what is its
/// own, the answer to the newest command put into the slot and not taken since, which that client
/// put. `own`: while the history has room, no client is refused such an answer. `fed`: each act
/// brings as many bytes as its command wants. `full`: where the history is full, the engine may do
/// nothing.
pub fn laws_of_steps()
    ensures ports { IsForPorts tcg }
    ensures unmixed { NeverMixes }
    ensures failure { FailureLaw }
    ensures registers { RegisterLaw }
    ensures answered { AnswerLaw }
    ensures taken { TakeLaw }
    ensures own { OwnLaw }
    ensures fed { FedLaw }
    ensures full { FullLaw }
{}

/// The limits of a port are these numbers: a history has room for 1,048,576 steps, a transfer moves 256 blocks at most.
pub fn laws_of_limits()
    ensures steps { most_steps ≡ 1048576 }
    ensures blocks { (requests.MOST_BLOCKS ≡ most_blocks) × (most_blocks ≡ 256) }
{}

/// What `==` of the types of this crate computes is whether the values are the same.
pub fn laws_of_equality()
    ensures requests { (x y : Request) → IsTrue ((asked.ghosts).eq x y) ↔ (x ≡ y) }
    ensures answers { (x y : Answer) → IsTrue ((answers.ghosts).eq x y) ↔ (x ≡ y) }
    ensures steps { (x y : Step) → IsTrue ((steps.ghosts).eq x y) ↔ (x ≡ y) }
    ensures entries { (x y : Entry) → IsTrue ((entries.ghosts).eq x y) ↔ (x ≡ y) }
{}
