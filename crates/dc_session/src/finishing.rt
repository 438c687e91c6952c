// What becomes of a session at its end.
ghost use Rattle.std.specs.Prelude.{◌≡◌, OnOk};
ghost use Rattle.dc_store.specs.StoreLaws.{AreSameBut, AreSameButAll};
ghost use Rattle.dc_session.specs.Asking.{finished, with_seen};
ghost use Rattle.dc_session.specs.SessionState.{borrows_of};

use crate::asking_commands::seen_flag;
use crate::session::Session;
use dc_outside::{Files, Link};
use dc_question::QuestionError;
use dc_serve::LineMachine;
use dc_text::{Mem, Name, OutOfMemory};

impl<'s, 'f, 't, 'h, 'e, F: Files, T: Link, E: Link> Session<'s, 'f, 't, 'h, 'e, F, T, E> {
    #[tactic(auto, using(dc_store::proofs::RowLemmas::same_all_refl))]
    /// Sets the flag `seen` on each question that was asked, in the order of first asking, where it is still there and the store takes
    /// the write (debconf-devel(7), FGET). Where memory runs out, some of them may have it.
    pub fn finish(&mut self) -> Mem<()>
        ensures ok { OnOk result ((⟦<Self as LineMachine>⟧.state self.new).store ≡ finished (⟦<Self as LineMachine>⟧.state self.old)) }
        ensures others { AreSameButAll (⟦<Self as LineMachine>⟧.state self.old).asking.asked (⟦<Self as LineMachine>⟧.state self.old).store.layers
            (⟦<Self as LineMachine>⟧.state self.new).store.layers }
        ensures kept { (⟦<Self as LineMachine>⟧.state self.new) ≡ record
            (⟦<Self as LineMachine>⟧.state self.old) { store = (⟦<Self as LineMachine>⟧.state self.new).store } }
        ensures borrows { borrows_of self.new ≡ borrows_of self.old }
    {
        let asked = self.asking.asked.names()?;
        for name in asked.as_slice() {
            self.mark_seen(name)?;
        }
        Ok(())
    }

    #[tactic(auto, using(dc_store::proofs::Frames::same_layers))]
    // Sets the flag `seen` on the question, where it is there and the store takes the write.
    fn mark_seen(&mut self, name: &Name) -> Mem<()>
        ensures ok { OnOk result ((⟦<Self as LineMachine>⟧.state self.new).store ≡ with_seen (⟦<Self as LineMachine>⟧.state self.old).at
            (⟦<Self as LineMachine>⟧.state self.old).store name.now) }
        ensures others { AreSameBut name.now (⟦<Self as LineMachine>⟧.state self.old).store.layers (⟦<Self as LineMachine>⟧.state self.new).store.layers }
        ensures kept { (⟦<Self as LineMachine>⟧.state self.new) ≡ record
            (⟦<Self as LineMachine>⟧.state self.old) { store = (⟦<Self as LineMachine>⟧.state self.new).store } }
        ensures borrows { borrows_of self.new ≡ borrows_of self.old }
    {
        let flag = seen_flag(self.alloc)?;
        let desk = &mut self.desk;
        match desk.questions.set_flag(name, &flag, true) {
            Err(QuestionError::OutOfMemory) => Err(OutOfMemory),
            Err(_) => Ok(()),
            Ok(()) => Ok(()),
        }
    }
}
