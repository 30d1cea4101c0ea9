// Whole numbers beyond the range of every rule, and patterns without a value.
use values::NotWhole;

// 1 where a pattern stands for the number meant, 2 for another whole number, 3 for no value, 0 for what is not whole.
pub fn verdict(bits: u32, meant: i32) -> u64 {
    match values::whole_of(values::float_of(bits)) {
        Ok(n) => { if n == meant { 1 } else { 2 } }
        Err(NotWhole::NoValue) => 3,
        Err(NotWhole::Fraction) => 0,
    }
}
