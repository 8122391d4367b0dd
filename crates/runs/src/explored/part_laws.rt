//! That the parts of a search are the whole.

ghost use Rattle.std.specs.Prelude.{◌≡◌, ◌≤◌, ℕ, List};
ghost use Rattle.sp_cells.specs.Config.{Config};
ghost use Rattle.tool.specs.Scripts.{script_lines};
ghost use Rattle.runs.specs.Plans.{most_letters};
ghost use Rattle.runs.specs.Shares.{most_parts};
ghost use Rattle.runs.specs.Tellings.{search_by, exploration_of};
ghost use Rattle.runs.specs.Merges.{IsExplored, LeavesNoneOut, part_texts, merge_of};
ghost use Rattle.runs.specs.declared.explored.plan.Plan.{Plan};

/// What all parts of an exploration print, in their order, is joined to what one run prints that leaves no list out.
pub fn law_of_parts()
    ensures { (config : Config) (plan : Plan) (text : List ℕ) (count : ℕ) → 1 ≤ count
        → count ≤ most_parts → plan.steps ≤ most_letters
        → LeavesNoneOut config (search_by plan (script_lines text)) plan.steps
        → IsExplored config text
        → merge_of (part_texts config plan count text) ≡ exploration_of config plan text }
{}
