// What a host must hold, and the constants that it works with.
ghost use Rattle.std.specs.Prelude.{◌≡◌};
ghost use Rattle.exports.specs.Sizes.{size_numbers};

// Bytes and alignment of the orders, of the room and of the window; how many orders can be live, insides held and
// numbers waited for; the bytes of a packet, at least and at most, and of a message at most.
#[unsafe(no_mangle)]
pub extern "C" fn jangsebit_sizes(told: &mut [u64; 12])
    ensures { told.new ≡ size_numbers }
{
    exports::jangsebit_sizes(told);
}
