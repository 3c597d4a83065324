// The entries of one pattern: its step rows are filled; starts whose walks are one step are staged from them as they are, the others once the
// rows are closed; then the rows are emptied.
#![tactic(auto)]

ghost use Rattle.single_starts.specs.Single.{SinglesStageable};
ghost use Rattle.pattern_entries.specs.Pattern.{PatternStageable, PatternStages, LedEntry, StepsStaged};

use staging::Code;

// Stages, behind the first cnt, the entries by the step rows. An edge of the list starts at every vertex that steps anywhere. Returns how many
// are staged then, or None if there are more than slots.
fn stage_filled(
    edges: &[u32],
    w: &mut [u64],
    starts: usize,
    code: Code,
    cnt: usize,
) -> Option<usize>
    requires { SinglesStageable edges.now w.old starts cnt }
    ensures { StepsStaged w.old code.number cnt w.new result }
{
    let n = single_starts::stage_singles(edges, w, starts, code, cnt)?;
    closure::close(w, starts);
    closed_starts::stage(w, code, n)
}

// Stages, behind the first cnt, the entries of the pattern that is a label and the parent's word. The edges are those of the label that end
// where the word can be spelled. Returns as stage_filled does.
pub fn stage(edges: &[u32], w: &mut [u64], starts: usize, code: Code, cnt: usize) -> Option<usize>
    requires { PatternStageable edges.now w.old starts cnt }
    ensures { PatternStages w.old (LedEntry edges.now w.old code.number) cnt w.new result }
{
    steps::fill(edges, w, rows::PARENT, rows::STEPS);
    let staged = stage_filled(edges, w, starts, code, cnt);
    steps::clear_sources(edges, w, rows::STEPS);
    staged
}
