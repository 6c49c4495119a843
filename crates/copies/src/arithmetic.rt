// What the computing instructions give.
ghost use Rattle.std.specs.Prelude.{◌≡◌, ℤ};
ghost use Rattle.meaning.specs.Arithmetic.{quotient_of, remainder_of, result_of};

use script::parts::Operation;

// The quotient of the least value by -1 has more than 32 bits, and wraps to the least value. Two operands, here and below: a
// pair would be made and taken apart each time.
fn quotient(a: i32, b: i32) -> i32
    ensures { result ≡ quotient_of a b }
{
    if b == 0 { 0 } else { a.wrapping_div(b) }
}

fn remainder(a: i32, b: i32) -> i32
    ensures { result ≡ remainder_of a b }
{
    if b == 0 { a } else { a.wrapping_rem(b) }
}

#[tactic(auto, using(std::proofs::lemmas::Int::wraps))]
pub fn apply(operation: Operation, a: i32, b: i32) -> i32
    ensures { result ≡ result_of operation a b }
{
    match operation {
        Operation::Add => a.wrapping_add(b),
        Operation::Subtract => a.wrapping_sub(b),
        Operation::Multiply => a.wrapping_mul(b),
        Operation::Quotient => quotient(a, b),
        Operation::Remainder => remainder(a, b),
        Operation::Less => i32::from(a < b),
        Operation::Same => i32::from(a == b),
    }
}
