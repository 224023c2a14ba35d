// A receiver: what is remembered of a cable while its bytes are heard.
ghost use Rattle.std.specs.Prelude.{◌≡◌, [], ◌∷◌, ◌<◌};
ghost use Rattle.cable.specs.State.{holding, pushed};
ghost use Rattle.cable.specs.Receiver.{cable_of};

use crate::{Cable, Receiver};

impl From<Cable> for Receiver {
    ghost from_gives = { λ s r. cable_of r ≡ s };

    fn from(s: Cable) -> Receiver {
        let held = s.held;
        Receiver {
            running: s.running,
            status: s.status,
            begun: s.begun,
            count: s.count,
            high: u32::from(held[0]) * 0x100 + u32::from(held[1]),
            low: u32::from(held[2]) * 0x1000000
                + u32::from(held[3]) * 0x10000
                + u32::from(held[4]) * 0x100
                + u32::from(held[5]),
        }
    }
}

impl From<Receiver> for Cable {
    ghost from_gives = { λ r s. s ≡ cable_of r };

    fn from(r: Receiver) -> Cable {
        let high = r.high.to_be_bytes();
        let low = r.low.to_be_bytes();
        Cable {
            running: r.running,
            status: r.status,
            begun: r.begun,
            count: r.count,
            held: [high[2], high[3], low[0], low[1], low[2], low[3]],
        }
    }
}

// Nothing is held of what is open.
pub(crate) fn fresh(running: u8, status: u8) -> Receiver
    ensures { cable_of result ≡ holding running status 0 [] }
{
    Receiver {
        running,
        status,
        begun: 0,
        count: 0,
        high: 0,
        low: 0,
    }
}

// One byte is held.
pub(crate) fn first_held(running: u8, status: u8, begun: u8, byte: u8) -> Receiver
    ensures { cable_of result ≡ holding running status begun (byte ∷ []) }
{
    Receiver {
        begun,
        count: 1,
        high: u32::from(byte) * 0x100,
        ..fresh(running, status)
    }
}

// One more byte is held, in its place.
#[inline(always)]
pub(crate) fn with_byte(byte: u8, s: Receiver) -> Receiver
    requires { s.count < 6 }
    ensures { cable_of result ≡ pushed byte (cable_of s) }
{
    let b = u32::from(byte);
    let count = s.count + 1;
    let high = s.high;
    let low = s.low;
    match s.count {
        0 => Receiver {
            count,
            high: b * 0x100 + high % 0x100,
            ..s
        },
        1 => Receiver {
            count,
            high: high / 0x100 * 0x100 + b,
            ..s
        },
        2 => Receiver {
            count,
            low: b * 0x1000000 + low % 0x1000000,
            ..s
        },
        3 => Receiver {
            count,
            low: low / 0x1000000 * 0x1000000 + b * 0x10000 + low % 0x10000,
            ..s
        },
        4 => Receiver {
            count,
            low: low / 0x10000 * 0x10000 + b * 0x100 + low % 0x100,
            ..s
        },
        _ => Receiver {
            count,
            low: low / 0x100 * 0x100 + b,
            ..s
        },
    }
}
