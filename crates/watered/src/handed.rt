// A plan as a C program hands it over, and its heads handed back. Rests on specs/Handed.antt.
ghost use Rattle.std.specs.Prelude.{◌≡◌, ◌<◌};
ghost use Rattle.plan.specs.Table.{answer_number};
ghost use Rattle.watered.specs.Handed as spec;

use heads::Head;
use plan::{Answer, Ground, Plan, answer_number};
use std::array;

// Head i of ten: x, y and radius of each in turn.
// No `From`, here and below: neither type is of this crate.
// By place, here and in `number_at`, and not by `as_chunks` and `as_flattened`: the definition has number i at i / 3
// and i % 3, and those speak of lists of lists.
#[tactic(auto, unfolding(crate::specs::Handed::head_of))]
fn head_of(numbers: &[i32; 30], i: usize) -> Head
    requires { i < 10 }
    ensures { result ≡ spec.head_of numbers.now i }
{
    let at = i * 3;
    Head {
        x: numbers[at],
        y: numbers[at + 1],
        radius: numbers[at + 2],
    }
}

// All ten.
fn heads_of(numbers: &[i32; 30]) -> [Head; 10]
    ensures { result ≡ spec.heads_of numbers.now }
{
    array::from_fn(|i| head_of(numbers, i))
}

// The box: its centre, width and height.
#[tactic(auto, unfolding(crate::specs::Handed::ground_of))]
fn ground_of(sides: &[i32; 4]) -> Ground
    ensures { result ≡ spec.ground_of sides.now }
{
    let [x, y, width, height] = *sides;
    Ground {
        x,
        y,
        width,
        height,
    }
}

// The plan.
#[tactic(auto, unfolding(crate::specs::Handed::plan_of))]
pub(crate) fn plan_of(n: usize, sides: &[i32; 4], numbers: &[i32; 30]) -> Plan
    ensures { result ≡ spec.plan_of n sides.now numbers.now }
{
    Plan {
        ground: ground_of(sides),
        n,
        heads: heads_of(numbers),
    }
}

// Number i of ten heads.
#[tactic(auto, unfolding(crate::specs::Handed::number_at))]
fn number_at(heads: &[Head; 10], i: usize) -> i32
    requires { i < 30 }
    ensures { result ≡ spec.number_at heads.now i }
{
    let Head { x, y, radius } = heads[i / 3];
    [x, y, radius][i % 3]
}

// The numbers of ten heads.
pub(crate) fn numbers_of(heads: [Head; 10]) -> [i32; 30]
    ensures { result ≡ spec.numbers_of heads }
{
    array::from_fn(|i| number_at(&heads, i))
}

// The number of an answer, 0 where it is taken.
pub(crate) fn number_of(answer: Answer) -> u32
    ensures { result ≡ answer_number answer }
{
    u32::from(answer_number(answer))
}
