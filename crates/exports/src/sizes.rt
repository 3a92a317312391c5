// What a host must hold, and the constants that it works with.
ghost use Rattle.std.specs.Prelude.{◌≡◌};
ghost use Rattle.exports.specs.Sizes.{size_numbers};

use session::state::Session;

// The bytes of one order and of one number; both lie at a multiple of a number's.
const ORDER: usize = 40;

const NUMBER: usize = 8;

const SIZES: [u64; 12] = [
    (Session::ORDERS * ORDER) as u64,
    NUMBER as u64,
    (Session::ROOM * NUMBER) as u64,
    NUMBER as u64,
    Session::PLACES as u64,
    1,
    Session::ORDERS as u64,
    Session::INSIDES as u64,
    Session::WINDOW as u64,
    Session::SHORTEST as u64,
    Session::LONGEST as u64,
    Session::MOST as u64,
];

// Bytes and alignment of the orders, of the room and of the window; how many orders can be live, insides held and
// numbers waited for; the bytes of a packet, at least and at most, and of a message at most.
pub fn jangsebit_sizes(told: &mut [u64; 12])
    ensures { told.new ≡ size_numbers }
{
    *told = SIZES;
}
