//! The settings from which judges are created.

ghost use Rattle.std.specs.Prelude.{◌≡◌};
ghost use Rattle.tc_c_judge.specs.Settings.{bool_of, rules_of, sender_window_of};

use tc_c_base::Status;
use tc_judge::Rules;
use tc_link::Window;
use tc_sender::SenderWindow;

/// The settings from which a judge of a receiver is created.
#[repr(C)]
#[derive(Clone, Copy)]
pub struct JudgeSettings {
    /// The spacecraft id, 0 to 1,023.
    pub scid: u16,
    /// The virtual channel id, 0 to 63.
    pub vcid: u8,
    /// The width of the receiver's sliding window, even and 2 to 254.
    pub width: u8,
    /// V(R) of the receiver at the start.
    pub first: u8,
    /// 1 if frames may be lost on their way to the receiver, otherwise 0.
    pub lossy: u8,
    /// 1 if the receiver must fill each cell of FARM-1's table as this project does, otherwise 0.
    pub profile: u8,
    /// The largest number of frames on their way for which the judge has room.
    pub most: u32,
}

/// Returns the flag that a number stands for, or BadFlag if the number is neither 0 nor 1.
pub(crate) fn flag(number: u8) -> Result<bool, Status>
    ensures { result ≡ bool_of number }
{
    match number {
        0 => Ok(false),
        1 => Ok(true),
        _ => Err(Status::BadFlag),
    }
}

/// Returns the rules by which a receiver is judged, or the first fault of the settings.
pub(crate) fn rules(settings: JudgeSettings) -> Result<Rules, Status>
    ensures { result ≡ rules_of settings }
{
    if settings.scid > 1023 {
        return Err(Status::BadScid);
    }
    if settings.vcid > 63 {
        return Err(Status::BadVcid);
    }
    let Some(window) = Window::new(settings.width) else {
        return Err(Status::BadWidth);
    };
    let lossy = flag(settings.lossy)?;
    let profile = flag(settings.profile)?;
    Ok(Rules {
        window,
        lossy,
        profile,
    })
}

/// Returns the window of a sender, or BadWidth if its width isn't from 1 to 127.
pub(crate) fn sender_window(width: u8) -> Result<SenderWindow, Status>
    ensures { result ≡ sender_window_of width }
{
    match SenderWindow::new(width) {
        Some(window) => Ok(window),
        None => Err(Status::BadWidth),
    }
}
