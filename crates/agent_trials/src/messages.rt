//! Messages to be sent.

use abt_parts::{Message, Outbox, Sent};
use std::process::Abort;
use std::test::Fail;

fn tell(to: u32, value: i64) -> Sent {
    Sent {
        to,
        message: Message::Tell { value, stamp: 1 },
    }
}

/// Takes out the first message, which must be this value's for this agent.
fn expect_told(rt: &impl Abort, outbox: &mut Outbox, to: u32, told: i64) {
    let sent = outbox.take_first().expect(rt, "a message");
    assert_eq!(rt; sent.to, to);
    assert!(rt; matches!(&sent.message, Message::Tell { value, stamp: 1 } if *value == told));
}

#[test]
fn first_in_is_first_out(rt: HostRuntime) -> Result<(), Fail> {
    let mut outbox = Outbox::new(rt.alloc());
    assert!(rt; outbox.is_empty());
    assert!(rt; outbox.push(tell(1, 10)).is_ok());
    assert!(rt; outbox.push(tell(2, 20)).is_ok());
    expect_told(&rt, &mut outbox, 1, 10);
    assert!(rt; outbox.push(tell(3, 30)).is_ok());
    assert_eq!(rt; outbox.len(), 2);
    expect_told(&rt, &mut outbox, 2, 20);
    expect_told(&rt, &mut outbox, 3, 30);
    assert!(rt; outbox.take_first().is_none());
    Ok(())
}
