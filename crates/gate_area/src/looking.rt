//! What a pair of areas stands for.
ghost use Rattle.std.specs.Prelude.{◌≡◌, ◌&&◌, nat_lt, take, [], ◌∷◌, IfOk};
ghost use Rattle.disk_model.specs.Calls.{Told, Tells, area_bytes, reads};
ghost use Rattle.disk_model.specs.Causes.{Wants};
ghost use Rattle.disk_model.specs.Went.{WentBy};
ghost use Rattle.disk_model.specs.Running.{Asks, Reads, ending};
ghost use Rattle.gate_area.specs.declared.pair.Head.TheVariants.{Closed, Open};
ghost use Rattle.gate_area.specs.Operations.{survey_ops, survey_ending};
ghost use Rattle.gate_area.specs.Standing.{Answers, answer_of, head_in, judged, has_magic, has_version, generation_of, is_journal, IsLook, SurveyWants, answer_at};

use crate::{Head, Pair, Standing, SurveyFault};
use disk_model::{Area, Disk, Refused};

// The length of an area, and what its front says.
#[derive(Clone, Copy)]
struct Look {
    len: u64,
    head: Head,
}

/// Which area of a pair stands, by its bytes. It asks for the length of each area and reads 17 bytes from its
/// start, the first area first.
pub fn survey<D: Disk>(disk: &mut D, pair: Pair) -> Result<Standing, SurveyFault>
    ensures answer { (t : Told) → Tells (D.told disk.old) (D.honest disk.old) t → Answers (answer_of pair (reads t)) result }
    ensures told { D.told disk.new ≡ D.told disk.old }
    ensures went { WentBy D.Disk (λ t. survey_ops) disk.old disk.new (survey_ending result) }
    ensures wants { SurveyWants (D.wants disk.old) (D.wants disk.new) result }
{
    let first = look_at(disk, pair, pair.first())?;
    let second = look_at(disk, pair, pair.second())?;
    judge(pair, first, second)
}

// Looks at one area.
fn look_at<D: Disk>(disk: &mut D, pair: Pair, area: Area) -> Result<Look, Refused>
    ensures look { (t : Told) → Tells (D.told disk.old) (D.honest disk.old) t → IfOk result (IsLook pair (area_bytes area t)) }
    ensures told { D.told disk.new ≡ D.told disk.old }
    ensures went { WentBy D.Disk (λ t. Asks ∷ Reads ∷ []) disk.old disk.new (ending result) }
    ensures wants { Wants (D.wants disk.old) (D.wants disk.new) result }
{
    let len = disk.len(area)?;
    let mut front = [0; 17];
    let count = disk.read(area, 0, &mut front)?;
    let head = if count == 17 {
        head_of(pair, &front)
    } else {
        Head::Closed
    };
    Ok(Look { len, head })
}

// What the first 17 bytes of an area say.
fn head_of(pair: Pair, front: &[u8; 17]) -> Head
    ensures { result ≡ head_in pair (take 16 front.now) }
{
    if front[0] != 1 {
        return Head::Closed;
    }
    if !is_magic(pair, front) {
        return Head::Spoilt(1);
    }
    if !is_version(front) {
        return Head::Spoilt(4);
    }
    let generation = generation_in(front);
    if generation == 0 {
        return Head::Spoilt(8);
    }
    Head::Open(generation)
}

fn is_magic(pair: Pair, front: &[u8; 17]) -> bool
    ensures { result ≡ has_magic pair (take 16 front.now) }
{
    let letter = match pair {
        Pair::Journal => b'J',
        Pair::Check => b'C',
    };
    front[1] == b'M' && front[2] == b'R' && front[3] == letter
}

fn is_version(front: &[u8; 17]) -> bool
    ensures { result ≡ has_version (take 16 front.now) }
{
    front[4] == 0 && front[5] == 0 && front[6] == 0 && front[7] == 1
}

// Bytes 8 to 15 as a number.
#[tactic(auto, unfolding(crate::specs::Standing::generation_of))]
fn generation_in(front: &[u8; 17]) -> u64
    ensures { result ≡ generation_of (take 16 front.now) }
{
    u64::from_be_bytes([
        front[8], front[9], front[10], front[11], front[12], front[13], front[14], front[15],
    ])
}

// What two areas stand for.
fn judge(pair: Pair, first: Look, second: Look) -> Result<Standing, SurveyFault>
    ensures { result ≡ answer_at pair first.len second.len (judged pair first.len second.len first.head second.head) }
{
    match first.head {
        Head::Spoilt(at) => Err(SurveyFault::Damaged(pair.first(), at)),
        Head::Open(generation) => beside_open(pair, generation, first.len, second),
        Head::Closed => beside_closed(pair, first.len, second),
    }
}

// What they stand for where the first counts with a generation.
fn beside_open(pair: Pair, generation: u64, len: u64, second: Look) -> Result<Standing, SurveyFault>
    ensures { result ≡ answer_at pair len second.len (judged pair len second.len (Open generation) second.head) }
{
    let area = pair.first();
    match second.head {
        Head::Spoilt(at) => Err(SurveyFault::Damaged(pair.second(), at)),
        Head::Open(other) => {
            if generation == other {
                return Err(SurveyFault::Damaged(pair.second(), 8));
            }
            if other < generation {
                return Ok(Standing::At {
                    area,
                    generation,
                    len,
                });
            }
            Ok(Standing::At {
                area: pair.second(),
                generation: other,
                len: second.len,
            })
        }
        Head::Closed => Ok(Standing::At {
            area,
            generation,
            len,
        }),
    }
}

// What they stand for where the first doesn't count.
fn beside_closed(pair: Pair, len: u64, second: Look) -> Result<Standing, SurveyFault>
    ensures { result ≡ answer_at pair len second.len (judged pair len second.len Closed second.head) }
{
    match second.head {
        Head::Spoilt(at) => Err(SurveyFault::Damaged(pair.second(), at)),
        Head::Open(generation) => Ok(Standing::At {
            area: pair.second(),
            generation,
            len: second.len,
        }),
        Head::Closed => {
            if second.len != 0 {
                return Err(SurveyFault::Damaged(pair.first(), 0));
            }
            if is_long(pair, len) {
                return Err(SurveyFault::Damaged(pair.first(), 0));
            }
            Ok(Standing::None)
        }
    }
}

// Whether a first area that doesn't count is longer than that of a fresh journal.
fn is_long(pair: Pair, len: u64) -> bool
    ensures { result ≡ (is_journal pair && nat_lt 17 len) }
{
    match pair {
        Pair::Journal => len > 17,
        Pair::Check => false,
    }
}
