//! Worked lines, judged by the definitions.

ghost use Rattle.std.specs.Prelude.{◌≡◌};
ghost use Rattle.line_rules.specs.Verdict.{Faithful, Broken, verdict};
ghost use Rattle.line_rules.specs.Names as rule;
ghost use Rattle.line_rules.specs.Rows.{three, spare, wide, wide_run, two_coordinators, other_value, a_run, are_judged, are_faults, faults_1, faults_2, faults_3, faults_4, faults_5, faults_6, faults_7, faults_8, faults_9};

/// The lines of two coordinators; and where the second node that learns the first command learns another value.
pub fn two_coordinators_are_faithful()
    ensures faithful { verdict three two_coordinators ≡ Faithful 22 }
    ensures broken { verdict three other_value ≡ Broken 16 rule.F1 }
{}

/// A run with skips, a checkpoint, a trim, a crash and a recovery.
pub fn a_run_is_faithful()
    ensures { verdict spare a_run ≡ Faithful 37 }
{}

/// Two partitions of two rings.
pub fn two_partitions_are_faithful()
    ensures { verdict wide wide_run ≡ Faithful 9 }
{}

/// For each rule, lines at fault behind faithful ones: the rule that is printed, and each condition that the line fails. Each
/// condition that a line can fail alone is the only one of some line here.
pub fn broken_lines()
    ensures f1 { are_judged faults_1 ≡ are_faults rule.F1 faults_1 }
    ensures f2 { are_judged faults_2 ≡ are_faults rule.F2 faults_2 }
    ensures f3 { are_judged faults_3 ≡ are_faults rule.F3 faults_3 }
    ensures f4 { are_judged faults_4 ≡ are_faults rule.F4 faults_4 }
    ensures f5 { are_judged faults_5 ≡ are_faults rule.F5 faults_5 }
    ensures f6 { are_judged faults_6 ≡ are_faults rule.F6 faults_6 }
    ensures f7 { are_judged faults_7 ≡ are_faults rule.F7 faults_7 }
    ensures f8 { are_judged faults_8 ≡ are_faults rule.F8 faults_8 }
    ensures f9 { are_judged faults_9 ≡ are_faults rule.F9 faults_9 }
{}
