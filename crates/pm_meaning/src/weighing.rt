//! What weighted conditions add to the score of a recipe (procmailsc(5)).
ghost use Rattle.std.specs.Prelude.{◌≡◌, ◌≤◌, ◌<◌, ◌^◌, ◌*◌, ◌/◌, min, pos, ◌≤ℤ◌, ◌+ℤ◌, ◌*ℤ◌, neg_ℤ, unsigned_abs};
ghost use Rattle.std.specs.Prelude.{int_lt, if◌then◌else◌, true, None, IfSome};
ghost use Rattle.pm_meaning.specs.Scores;

/// The greatest score, whose negative is the least.
const MOST_SCORE: i64 = 2_147_483_647;

/// So much leads out of the range from each score in it.
const OUT_OF_RANGE: u64 = 4_294_967_295;

/// From the exponent 2 on a length that is greater counts as this, and a number that is greater has no share.
const MOST_LENGTH: u64 = 134_217_728;

/// A number brought into the range of scores.
fn bounded(number: i64) -> i32
    ensures value { result ≡ Scores.bounded number }
    ensures low { neg_ℤ (pos 2147483647) ≤ℤ result }
    ensures high { result ≤ℤ pos 2147483647 }
{
    number.clamp(-MOST_SCORE, MOST_SCORE) as i32
}

/// So much more, or so much less.
fn signed(less: bool, amount: i64) -> i64
    requires low { pos 0 ≤ℤ amount }
    ensures { result ≡ (if less then neg_ℤ amount else amount) }
{
    if less { -amount } else { amount }
}

/// The score after so much more, or so much less.
fn moved(total: i32, less: bool, amount: u64) -> i32
    requires low { neg_ℤ (pos 2147483647) ≤ℤ total }
    requires high { total ≤ℤ pos 2147483647 }
    ensures value { result ≡ Scores.bounded (total +ℤ (if less then neg_ℤ (pos amount) else pos amount)) }
    ensures low { neg_ℤ (pos 2147483647) ≤ℤ result }
    ensures high { result ≤ℤ pos 2147483647 }
{
    let change = signed(less, amount.min(OUT_OF_RANGE) as i64);
    bounded(total as i64 + change)
}

/// The sum of the powers with so many exponents from 0 on, up to where it leads out of the range.
fn powers(x: u32, count: u64) -> u64
    ensures { result ≡ min (Scores.powers x count) 4294967295 }
{
    if x == 0 {
        return count.min(1);
    }
    if x == 1 {
        return count.min(OUT_OF_RANGE);
    }
    let mut sum = 0;
    for _k in 0..count {
        sum = 1 + x as u64 * sum;
        if sum >= OUT_OF_RANGE {
            return OUT_OF_RANGE;
        }
    }
    sum
}

/// The score after so many matches of a condition with the weight `w^x`, whose exponent isn't negative.
pub fn add_score(total: i32, w: i32, x: i32, count: u64) -> i32
    requires low { neg_ℤ (pos 2147483647) ≤ℤ total }
    requires high { total ≤ℤ pos 2147483647 }
    requires whole { pos 0 ≤ℤ x }
    ensures value { result ≡ Scores.add_score total w (unsigned_abs x) count }
    ensures low { neg_ℤ (pos 2147483647) ≤ℤ result }
    ensures high { result ≤ℤ pos 2147483647 }
{
    add_matches(total, w, x.unsigned_abs(), count)
}

/// As `add_score`, with the exponent of a weight that was read.
pub fn add_matches(total: i32, w: i32, x: u32, count: u64) -> i32
    requires low { neg_ℤ (pos 2147483647) ≤ℤ total }
    requires high { total ≤ℤ pos 2147483647 }
    ensures value { result ≡ Scores.add_score total w x count }
    ensures low { neg_ℤ (pos 2147483647) ≤ℤ result }
    ensures high { result ≤ℤ pos 2147483647 }
{
    moved(total, w < 0, w.unsigned_abs() as u64 * powers(x, count))
}

/// The score after a program of a condition with the weight `w^x` ended with this code: it is `w` more for the code 0,
/// and `x` more for any other. An inverted condition counts as many matches as the code says.
pub fn add_code(total: i32, w: i32, x: u32, inverted: bool, code: u8) -> i32
    requires low { neg_ℤ (pos 2147483647) ≤ℤ total }
    requires high { total ≤ℤ pos 2147483647 }
    ensures value { result ≡ Scores.add_code total w x inverted code }
    ensures low { neg_ℤ (pos 2147483647) ≤ℤ result }
    ensures high { result ≤ℤ pos 2147483647 }
{
    if inverted {
        add_matches(total, w, x, code as u64)
    } else if code == 0 {
        bounded(total as i64 + w as i64)
    } else {
        bounded(total as i64 + x as i64)
    }
}

/// A length of 0 counts as 1.
fn counted_length(x: u32, length: u64) -> u64
    ensures value { result ≡ Scores.counted_length x length }
    ensures some { 0 < result }
    ensures bound { 1 < x → result ≤ 134217728 }
{
    if x > 1 {
        length.min(MOST_LENGTH).max(1)
    } else {
        length.max(1)
    }
}

/// The power of a number, which from the exponent 2 on isn't great.
fn power(base: u64, x: u32) -> u128
    requires small { x ≤ 3 }
    requires bounded { 1 < x → base ≤ 134217728 }
    ensures value { result ≡ base ^ x }
    ensures bound { result ≤ 2 ^ 81 }
    ensures positive { 0 < base → 0 < result }
{
    let base = base as u128;
    match x {
        0 => 1,
        1 => base,
        2 => base * base,
        _ => base * base * base,
    }
}

/// So much as one number is over another to the power x, up to where it leads out of the range.
fn share(each: u32, above: u64, below: u64, x: u32) -> u64
    requires small { x ≤ 3 }
    requires above { 1 < x → above ≤ 134217728 }
    requires below { 1 < x → below ≤ 134217728 }
    requires some { 0 < below }
    ensures { result ≡ min (each * above ^ x / below ^ x) 4294967295 }
{
    let amount = each as u128 * power(above, x) / power(below, x);
    amount.min(OUT_OF_RANGE as u128) as u64
}

/// The share that a length has by its number, or the other way round.
fn share_by(over: bool, each: u32, x: u32, length: u64, number: u64) -> u64
    requires small { x ≤ 3 }
    requires length { 1 < x → length ≤ 134217728 }
    requires number { 1 < x → number ≤ 134217728 }
    requires some { 0 < length }
    requires any { 0 < number }
    ensures { let above = (if over then length else number) in let below = (if over then number else length) in
        result ≡ min (each * above ^ x / below ^ x) 4294967295 }
{
    if over {
        share(each, length, number, x)
    } else {
        share(each, number, length, x)
    }
}

/// Whether a length has a share by this number with this exponent.
fn has_share(x: u32, number: u64) -> bool
    ensures value { result ≡ Scores.has_share x number }
    ensures small { result ≡ true → x ≤ 3 }
    ensures some { result ≡ true → 0 < number }
    ensures bound { result ≡ true → 1 < x → number ≤ 134217728 }
{
    x <= 3 && 0 < number && (x <= 1 || number <= MOST_LENGTH)
}

/// The score after a condition on a size with the weight `w^x`: it is so much greater as the length is over the number
/// to the power x, or the number over the length. There is none where the exponent isn't from 0 to 3, where the number
/// is 0, and with an exponent above 1 where the number is above 134,217,728.
pub fn add_length(total: i32, w: i32, x: i32, length: u64, number: u64, over: bool) -> Option<i32>
    requires low { neg_ℤ (pos 2147483647) ≤ℤ total }
    requires high { total ≤ℤ pos 2147483647 }
    ensures value { result
        ≡ (if int_lt x (pos 0) then None else Scores.add_length total w (unsigned_abs x) length number over) }
    ensures low { IfSome result (λ score. neg_ℤ (pos 2147483647) ≤ℤ score) }
    ensures high { IfSome result (λ score. score ≤ℤ pos 2147483647) }
{
    if x < 0 {
        return None;
    }
    add_share(total, w, x.unsigned_abs(), length, number, over)
}

/// As `add_length`, with the exponent of a weight that was read.
pub fn add_share(total: i32, w: i32, x: u32, length: u64, number: u64, over: bool) -> Option<i32>
    requires low { neg_ℤ (pos 2147483647) ≤ℤ total }
    requires high { total ≤ℤ pos 2147483647 }
    ensures value { result ≡ Scores.add_length total w x length number over }
    ensures low { IfSome result (λ score. neg_ℤ (pos 2147483647) ≤ℤ score) }
    ensures high { IfSome result (λ score. score ≤ℤ pos 2147483647) }
{
    if !has_share(x, number) {
        return None;
    }
    let share = share_by(over, w.unsigned_abs(), x, counted_length(x, length), number);
    Some(moved(total, w < 0, share))
}
