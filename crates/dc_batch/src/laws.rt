//! Laws of the definitions, which show that they mean what they say.
ghost use Rattle.std.specs.Prelude.{◌≡◌, ◌⊎◌, ◌∷◌, [], ℕ, List};
ghost use Rattle.dc_batch.specs.JobExamples.{Examples, faults_in, jobs_of};
ghost use Rattle.dc_batch.specs.Printed.{AreJobs, canon};
ghost use Rattle.dc_batch.specs.Reading.{Reads, IsBad};
ghost use Rattle.dc_batch.specs.declared.faults.JobKind.{JobKind};
ghost use Rattle.dc_batch.specs.declared.job.Job.{Job};

/// The jobs and the faults of some texts, as they are worked out.
pub fn answers_are_worked_out()
    ensures { Examples }
{}

/// A text that has no line with a fault is read, and else its fault is the first of all lines with a fault.
pub fn faults_are_listed()
    ensures none { (text : List ℕ) → faults_in text ≡ [] → Reads text (jobs_of text) }
    ensures first { (text : List ℕ) (n : ℕ) (kind : JobKind) (others : List (ℕ × JobKind)) → faults_in text ≡ (n, kind) ∷ others
        → IsBad text n kind }
{}

/// A text has one list of jobs or one first fault, and not both.
pub fn texts_have_one_answer()
    ensures one_reading { (text : List ℕ) (a b : List Job) → Reads text a → Reads text b → a ≡ b }
    ensures one_fault { (text : List ℕ) (m n : ℕ) (j k : JobKind) → IsBad text m j → IsBad text n k → (m ≡ n) × (j ≡ k) }
    ensures not_both { (text : List ℕ) (jobs : List Job) (n : ℕ) (kind : JobKind) → Reads text jobs → IsBad text n kind → ⊥ }
    ensures some { (text : List ℕ) → ((jobs : List Job) × Reads text jobs) ⊎ ((n : ℕ) × (kind : JobKind) × IsBad text n kind) }
{}

/// What is read is at most 256 jobs, each of a package of its own and with templates or a command, and any such jobs can be read:
/// from their printed text.
pub fn jobs_can_be_read()
    ensures sound { (text : List ℕ) (jobs : List Job) → Reads text jobs → AreJobs jobs }
    ensures printed { (jobs : List Job) → AreJobs jobs → Reads (canon jobs) jobs }
{}
