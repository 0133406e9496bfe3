//! Ways: from which system to which a message type goes.

ghost use Rattle.std.specs.Prelude.{◌≡◌};
ghost use Rattle.dist_model.specs.Way.{outbound_way, row_way};

use crate::{Outbound, Row};

/// The way of a row: sender, receiver and message type.
pub fn row_way(row: &Row) -> (usize, usize, usize)
    ensures { result ≡ row_way row.now }
{
    let message = row.message.0;
    (
        usize::from(row.sender.get()),
        usize::from(row.receiver.get()),
        usize::from(message),
    )
}

/// The way of a profile of what is sent.
pub fn outbound_way(profile: &Outbound) -> (usize, usize, usize)
    ensures { result ≡ outbound_way profile.now }
{
    let message = profile.message.0;
    (
        usize::from(profile.sender.get()),
        usize::from(profile.receiver.get()),
        usize::from(message),
    )
}
