//! How many runs passed.

ghost use Rattle.std.specs.Prelude.{◌≡◌, ◌↔◌, is_none, if◌then◌else◌, count_by};
ghost use Rattle.case_files.specs.declared.tally.Judged.TheVariants.{Passed, Differs, NotRun};
ghost use Rattle.case_files.specs.Counts.{is};

/// What became of a run.
#[derive(Clone, Copy, PartialEq, Eq)]
pub enum Judged {
    Passed,
    Differs,
    /// The case can't be read, or wants what isn't there yet.
    NotRun,
}

impl Judged {
    /// A run passed where no line says how it differs.
    pub fn of(line: &Option<String>) -> Self
        ensures { result ≡ (if is_none line.now then Passed else Differs) }
    {
        match line {
            None => Judged::Passed,
            Some(_) => Judged::Differs,
        }
    }
}

/// How many runs came to what.
#[derive(Drop)]
pub struct Tally {
    pub passed: usize,
    pub differing: usize,
    pub not_run: usize,
}

impl Tally {
    pub fn of(judged: &[Judged]) -> Self
        ensures passed { result.passed ≡ count_by (is Passed) judged.now }
        ensures differing { result.differing ≡ count_by (is Differs) judged.now }
        ensures not_run { result.not_run ≡ count_by (is NotRun) judged.now }
    {
        Tally {
            passed: count(judged, Judged::Passed),
            differing: count(judged, Judged::Differs),
            not_run: count(judged, Judged::NotRun),
        }
    }

    /// The exit status of the program: 0 where every run passed.
    pub fn code(&self) -> u8
        ensures { (result ≡ 0) ↔ ((self.now.differing ≡ 0) × (self.now.not_run ≡ 0)) }
    {
        if self.differing == 0 && self.not_run == 0 {
            0
        } else {
            1
        }
    }
}

fn count(judged: &[Judged], wanted: Judged) -> usize
    ensures value { result ≡ count_by (is wanted) judged.now }
{
    let mut count = 0;
    for one in judged {
        if *one == wanted {
            count += 1;
        }
    }
    count
}
