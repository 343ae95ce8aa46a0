//! Up to where acceptors are covered.
ghost use Rattle.std.specs.Prelude.{◌≡◌, ◌+◌, ◌/◌, nat_le, count_by, length};
ghost use Rattle.protocol.specs.Ballots.{reached_by};

use mrp_types::Inst;

/// How many of them reach an instance.
fn count_from(covered: &[Inst], inst: Inst) -> usize
    ensures { result ≡ count_by (λ c. nat_le inst c) covered.now }
{
    covered.iter().filter(|c| inst <= **c).count()
}

/// The greatest instance that a majority reaches; 0 where there is none.
#[tactic(auto, using(crate::proofs::Covering::one_reached, crate::proofs::Covering::one_short))]
pub fn covered_to(covered: &[Inst]) -> Inst
    ensures { result ≡ reached_by (length covered.now / 2 + 1) covered.now covered.now }
{
    let mut reached = 0;
    for inst in covered {
        if covered.len() / 2 < count_from(covered, *inst) {
            reached = reached.max(*inst);
        }
    }
    reached
}
