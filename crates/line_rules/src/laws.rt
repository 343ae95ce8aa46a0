//! What the rules, their tests and the verdict have to do with one another.

ghost use Rattle.std.specs.Prelude.{◌≡◌, ◌↔◌, ◌++◌, ◌∷◌, [], ℕ, List, IsTrue, Some, true, false, length};
ghost use Rattle.mrp_types.specs.declared.id.ClientId.{ClientId};
ghost use Rattle.mrp_types.specs.declared.id.NodeId.{NodeId};
ghost use Rattle.mrp_types.specs.declared.id.RingId.{RingId};
ghost use Rattle.mrp_types.specs.declared.value.Value.{Value};
ghost use Rattle.mrp_types.specs.Book.{book_of};
ghost use Rattle.mrp_config.specs.Config.{Config};
ghost use Rattle.mrp_config.specs.Valid.{IsValid};
ghost use Rattle.transcript.specs.declared.line.Line.{Line};
ghost use Rattle.plain_model.specs.Lines as plain;
ghost use Rattle.plain_model.specs.Tuples.{round_sizes};
ghost use Rattle.line_rules.specs.More.{ReadsOn, ReadsSame};
ghost use Rattle.line_rules.specs.Names.{Rule};
ghost use Rattle.line_rules.specs.Follows.{AreInOrder, IsOrdered, delivered};
ghost use Rattle.line_rules.specs.Rules.{AreFaithful, Answers, Keeps, IsFaithful};
ghost use Rattle.line_rules.specs.Scanners.{before_attempt, begun, book, learned, told, touches};
ghost use Rattle.quorums.specs.Groups.{Has};
ghost use Rattle.line_rules.specs.Scanners as scanners;
ghost use Rattle.line_rules.specs.Conditions.{all_hold, conditions};
ghost use Rattle.line_rules.specs.Verdict.{Faithful, Broken, keeps, verdict, FirstFault};

/// Each test decides its rule.
pub fn tests_decide_rules()
    ensures { (c : Config) → IsValid c → (name : Rule) (before : List Line) (line : Line) → IsTrue (keeps name c before line) ↔ Keeps name c before line }
{}

/// The test of a rule is that all of its conditions hold.
pub fn conditions_make_tests()
    ensures { (name : Rule) (c : Config) (before : List Line) (line : Line) → all_hold (conditions name c before line) ≡ keeps name c before line }
{}

/// The verdict is that all lines are faithful exactly where they are. Where it names a line and a rule, the lines before that line
/// are faithful, and the rule is the least that it breaks.
pub fn verdicts_tell_what_is_faithful()
    ensures faithful { (c : Config) → IsValid c → (lines : List Line) → (verdict c lines ≡ Faithful (length lines)) ↔ IsFaithful c lines }
    ensures broken { (c : Config) → IsValid c → (lines : List Line) (number : ℕ) (name : Rule) → verdict c lines ≡ Broken number name → FirstFault c lines number name }
{}

/// Every front of faithful lines is faithful.
pub fn fronts_are_faithful()
    ensures { (c : Config) (front rest : List Line) → IsFaithful c (front ++ rest) → IsFaithful c front }
{}

/// One line more. A line that isn't of a node's life changes nothing of what is read of that node; one of its life tells what its
/// kind tells, or else what was told before, and moves the node on.
pub fn one_line_more()
    ensures others { (m : ℕ → ℕ) (rings : List RingId) (x : ℕ) (l : Line) (before : List Line) → touches x l ≡ false → ReadsSame m rings x l before }
    ensures own { (m : ℕ → ℕ) (rings : List RingId) (x : ℕ) (l : Line) (before : List Line) → touches x l ≡ true → ReadsOn m rings x l before }
{}

/// What stays once it is there, whatever is printed later: a value of the book, a tuple that was told, an attempt that was begun,
/// and the lines before the first begin line of an attempt.
pub fn lines_only_grow()
    ensures book { (l : Line) (before : List Line) (ring : RingId) (inst : ℕ) (value : Value) → book before ring inst ≡ Some value → book (l ∷ before) ring inst ≡ Some value }
    ensures told { (x : ℕ) (l : Line) (before : List Line) (tuple : List ℕ) → Has (told x before) tuple → Has (told x (l ∷ before)) tuple }
    ensures begun { (x : ℕ) (l : Line) (before : List Line) (attempt : ℕ × ℕ) → Has (begun x before) attempt → Has (begun x (l ∷ before)) attempt }
    ensures first { (x epoch attempt : ℕ) (l : Line) (before earlier : List Line) → before_attempt x epoch attempt before ≡ Some earlier → before_attempt x epoch attempt (l ∷ before) ≡ Some earlier }
    ensures joined { (before xs ys : List Line) → scanners.past before (xs ++ ys) ≡ scanners.past (scanners.past before xs) ys }
{}

/// The book of lines that stand with the latest first is the book of the plain model over these lines in order, and that of what
/// their learn lines say.
pub fn one_book()
    ensures ordered { (lines : List Line) (ring : RingId) (inst : ℕ) → book (scanners.past [] lines) ring inst ≡ plain.book lines ring inst }
    ensures learned { (before : List Line) (ring : RingId) (inst : ℕ) → book before ring inst ≡ book_of (learned before) ring inst }
{}

/// Since its last restore line each node delivers places in the one order of all places, none twice. All nodes follow this order,
/// so "delivered before" has no cycle.
pub fn deliveries_follow_one_order()
    ensures { (c : Config) → IsValid c → (node : NodeId) (before : List Line) → AreFaithful c before → AreInOrder (round_sizes c) (delivered node.0 before) }
{}

/// A command that is answered has a place in the book, and it has it in the book of all later lines.
pub fn answered_commands_stay()
    ensures ordered { (c : Config) (before : List Line) (client : ClientId) (seq : ℕ) (reply : List ℕ) → Answers c before client seq reply → IsOrdered before client seq }
    ensures stays { (before : List Line) (client : ClientId) (seq : ℕ) (line : Line) → IsOrdered before client seq → IsOrdered (line ∷ before) client seq }
{}
