// Filling the front of a lent buffer with zeros. How much of a buffer is to be cleared, and when, is the callers' business.
#![tactic(auto)]

ghost use Rattle.std.specs.Prelude.{◌≡◌};
ghost use Rattle.buffers.specs.Cleared.{cleared};

// So many bytes at the front end as zero, all of them where the buffer is no longer; the rest stay. It is one plain fill.
pub fn clear_front(buffer: &mut [u8], count: usize)
    ensures { buffer.new ≡ cleared count buffer.old }
{
    let stop = count.min(buffer.len());
    buffer[..stop].fill(0);
}
