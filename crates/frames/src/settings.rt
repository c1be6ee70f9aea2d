// What all posts of a ring are set to. Assumes nothing.
ghost use Rattle.std.specs.Prelude.{◌≡◌, ℕ, ◌*◌, ◌≤◌, slice_index};

mod reading;

pub use reading::read_settings;

#[derive(Clone, Copy, Debug)]
pub struct Settings {
    // how many posts there are
    pub posts: u8,
    // how many numbers there are for a member: 0 to k - 1
    pub k: u16,
    // for each post how many ticks it may speak, and 0 past the last post: by value, since settings take no memory
    pub turns: [u16; 21],
    ghost some: { 2 ≤ posts },
    ghost few: { posts ≤ 21 },
    ghost enough: { 3 * posts ≤ k },
    ghost short: { (i : ℕ) → slice_index turns i ≤ 1000 },
    ghost rest: { (i : ℕ) → posts ≤ i → slice_index turns i ≡ 0 },
}
