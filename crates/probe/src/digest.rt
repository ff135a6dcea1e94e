// The digest of a list of numbers, or of bytes: one number that stands for them.
pub fn digest<T: Copy + Into<u64>>(xs: &[T]) -> u64 {
    xs.iter()
        .fold(xs.len() as u64, |h, x| h.rotate_left(7) ^ (*x).into())
}
