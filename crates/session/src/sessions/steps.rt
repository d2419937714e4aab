// A pass.
ghost use Rattle.std.specs.Prelude.{IfOk};
ghost use Rattle.record.specs.Lists.{Lists};
ghost use Rattle.verdict.specs.Runs.{Right};
ghost use Rattle.verdict.specs.Said.{said};
ghost use Rattle.session.specs.Calling.{pass_made, own_step, LayoutLeft, passed_of};
ghost use Rattle.session.specs.Desk.{desk_of};
ghost use Rattle.session.specs.Passing.{PassStep, LeadsOn};
ghost use Rattle.session.specs.Taking.{LeadsTo};
ghost use Rattle.session.specs.Telling.{VerdictStep};

use super::Passing;
use crate::passed::Passed;
use crate::workspace::Workspace;
use faults::Fault;
use findings::findings_hold;
use layout::Layout;
use manuscript::Manuscript;
use passes::{Task, make_pass};
use typeset::Telling;
use verdict::Verdict;

// Where a pass makes the next record of a run, it leads to where the run leads next.
fn leads_on()
    ensures { LeadsOn }
{}

impl Passing {
    // `pass` without its laws, which are proved over the step as one fact.
    fn try_pass<L: Layout>(
        &mut self,
        manuscript: Manuscript,
        layout: &mut L,
        workspace: &mut Workspace,
    ) -> Result<Passed, Fault>
        ensures step { PassStep (pass_made L.meaning manuscript.entry.text.now self.old.numbers layout.old (desk_of workspace.old)) self.old.numbers (desk_of workspace.old) result self.new.numbers (desk_of workspace.new) }
        ensures layout { LayoutLeft L.meaning self.old.numbers layout.old layout.new }
    {
        self.numbers.may_pass()?;
        let telling = Telling {
            style: self.numbers.style,
            old: &workspace.current,
        };
        let task = Task {
            manuscript,
            telling,
            pass: self.numbers.progress.passes + 1,
        };
        let words = make_pass(task, layout, &mut workspace.spare)?;
        Ok(self.take_in(words, workspace))
    }

    // Makes a pass from the current record, and answers its number and how many words it set. Where the records so far are those
    // of a run of passes over this manuscript, at these settings of the layout, they still are.
    // The three are no struct: they are lent for a call alone, so each caller would make it for that call.
    pub fn pass<L: Layout>(
        &mut self,
        manuscript: Manuscript,
        layout: &mut L,
        workspace: &mut Workspace,
    ) -> Result<Passed, Fault>
        ensures step { PassStep (pass_made L.meaning manuscript.entry.text.now self.old.numbers layout.old (desk_of workspace.old)) self.old.numbers (desk_of workspace.old) result self.new.numbers (desk_of workspace.new) }
        ensures layout { LayoutLeft L.meaning self.old.numbers layout.old layout.new }
        ensures leads { (x : Lists) → LeadsTo (own_step L.meaning manuscript.entry.text.now self.old.numbers layout.old) x self.old.numbers.progress (desk_of workspace.old) → LeadsTo (own_step L.meaning manuscript.entry.text.now self.old.numbers layout.old) x self.new.numbers.progress (desk_of workspace.new) }
    {
        leads_on();
        findings_hold::<L>();
        self.try_pass(manuscript, layout, workspace)
    }

    // Makes a pass and answers the verdict too, which is true of the run that the records so far are those of, however far it
    // would go on.
    pub fn pass_and_judge<L: Layout>(
        &mut self,
        manuscript: Manuscript,
        layout: &mut L,
        workspace: &mut Workspace,
    ) -> Result<(Passed, Verdict), Fault>
        ensures step { PassStep (pass_made L.meaning manuscript.entry.text.now self.old.numbers layout.old (desk_of workspace.old)) self.old.numbers (desk_of workspace.old) (passed_of result) self.new.numbers (desk_of workspace.new) }
        ensures layout { LayoutLeft L.meaning self.old.numbers layout.old layout.new }
        ensures value { IfOk result (λ p. VerdictStep self.new.numbers.progress p.1) }
        ensures right { IfOk result (λ p. (x : Lists) → LeadsTo (own_step L.meaning manuscript.entry.text.now self.old.numbers layout.old) x self.old.numbers.progress (desk_of workspace.old) → Right (own_step L.meaning manuscript.entry.text.now self.old.numbers layout.old) x (said p.1)) }
    {
        let passed = self.pass(manuscript, layout, workspace)?;
        Ok((passed, self.verdict()))
    }
}
