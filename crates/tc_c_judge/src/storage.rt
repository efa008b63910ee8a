//! The memory that the creation of a judge requests.

ghost use Rattle.std.specs.Prelude.{◌≡◌, ◌≤◌, IfOk, IfErr};
ghost use Rattle.tc_c_judge.specs.Storage.{judge_storage, marks_room, sender_storage};

// The bytes of the block that holds a judge of either kind.
const BLOCK: u64 = 192;
// The bytes of a frame on its way.
const FRAME: u64 = 4;
// The bytes of the set of possible CLCWs and of two layers.
const SETS: u64 = 3 * 8192;

// Returns the bytes of a list of marks with room for one more than `most`.
fn marks(most: u64) -> u64
    requires { most ≤ 4294967295 }
    ensures room { result ≡ marks_room most }
    ensures range { result ≤ 4294967296 }
{
    if most < 8 {
        8
    } else if most < 15 {
        16
    } else {
        most + 1
    }
}

/// Returns the number of bytes that `tcrx_judge_new_at` requests for a judge with room for `most` frames on their way.
/// The blocks that the judge has in the end are counted. No other call requests memory.
#[unsafe(no_mangle)]
pub extern "C" fn tcrx_judge_storage(most: u32) -> u64
    ensures { result ≡ judge_storage most }
{
    let most = u64::from(most);
    BLOCK + SETS + FRAME * most + 2 * marks(most)
}

/// Returns the number of bytes that `tcrx_sender_new_at` requests for a judge of a sender with this window.
#[unsafe(no_mangle)]
pub extern "C" fn tcrx_sender_storage(window: u8) -> u64
    ensures { result ≡ sender_storage window }
{
    BLOCK + u64::from(window) + 1
}
