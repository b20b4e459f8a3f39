// Reads a field from any bytes: a number of its range, or its fault. Believes nothing of the bytes before testing its range.
#![tactic(auto)]

ghost use Rattle.std.specs.Prelude.{◌≡◌, ◌≢◌, ◌+◌, ◌^◌, ◌≤◌, ◌<◌, length, Ok, Err, IfSome};
ghost use Rattle.papers.specs.Numbers.{number_read_from, within_field, field};
ghost use Rattle.read_fields.specs.Reading.{read_from_result};

use papers::NumberFault;
use refusals::{Fault, Refusal};

// Refuses at the byte of index `at`; its place counts from 1.
pub fn fault_at<T>(refusal: Refusal, at: usize) -> Result<T, Fault>
    requires { at + 1 < 2 ^ 64 }
    ensures { result ≡ Err (record { refusal = refusal; place = at + 1 }) }
{
    Err(Fault {
        refusal,
        place: at as u64 + 1,
    })
}

// Answers the value that was read from `at` up to next as a field from low to high, and the place behind it; or that it is outside.
fn in_range(at: usize, low: u64, high: u64, value: u64, next: usize) -> Result<(u64, usize), Fault>
    requires { at + 1 < 2 ^ 64 }
    ensures { read_from_result result ≡ within_field low high at (Ok (value, next)) }
{
    if value < low || high < value {
        return fault_at(Refusal::ValueOutOfRange, at);
    }
    Ok((value, next))
}

// The number that starts at `at`, if it has two groups.
pub fn two_groups(plan: &[u8], at: usize) -> Option<u64>
    requires { at ≤ length plan.now }
    ensures { IfSome result (λ value. (value ≢ 0) × (Ok (value, at + 2) ≡ number_read_from plan.now at)) }
{
    if plan.len() - at < 2 {
        return None;
    }
    let low = u64::from(plan[at]);
    let next = u64::from(plan[at + 1]);
    if low < 128 || next == 0 || 127 < next {
        return None;
    }
    Some(low - 128 + 128 * next)
}

// Reads a field from low to high whose number starts at `at` and has any length. Answers its value and the place behind it.
pub fn read_long(plan: &[u8], at: usize, low: u64, high: u64) -> Result<(u64, usize), Fault>
    requires { at ≤ length plan.now }
    ensures { read_from_result result ≡ field low high plan.now at }
{
    match read_number::read_number(plan, at) {
        Ok((value, next)) => in_range(at, low, high, value, next),
        Err(NumberFault::Ended) => fault_at(Refusal::BytesEnd, at),
        Err(NumberFault::TooLong) => fault_at(Refusal::NumberTooLong, at),
        Err(NumberFault::NotShortest) => fault_at(Refusal::NumberTooLong, at),
    }
}

// The same. Most numbers have one group or two; these are read without the loop.
pub fn read_field(plan: &[u8], at: usize, low: u64, high: u64) -> Result<(u64, usize), Fault>
    requires { at ≤ length plan.now }
    ensures { read_from_result result ≡ field low high plan.now at }
{
    if at < plan.len() {
        let b = u64::from(plan[at]);
        if b < 128 {
            return in_range(at, low, high, b, at + 1);
        }
    }
    if let Some(value) = two_groups(plan, at) {
        return in_range(at, low, high, value, at + 2);
    }
    read_long(plan, at, low, high)
}
