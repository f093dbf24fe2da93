//! Commands that wait for the line.
ghost use Rattle.std.specs.Prelude.{◌≡◌, []};
ghost use Rattle.runlog.specs.OrderLists as spec;

use crate::order::Order;
use arrayvec::ArrayVec;
use std::marker::Model;

/// Commands, the oldest first: 64 at most wait for the line.
#[derive(Drop)]
pub(crate) struct OrderList {
    orders: ArrayVec<Order, 64>,
}

impl Model for OrderList {
    ghost use Rattle.std.specs.Prelude.{List};
    ghost use Rattle.runlog.specs.declared.order.Order.{Order as Kept};

    ghost Value = { List Kept };

    ghost view = { λ l. l.orders.items };
}

impl OrderList {
    pub(crate) fn new() -> OrderList
        ensures { result ≡ [] }
    {
        OrderList {
            orders: ArrayVec::new(),
        }
    }

    pub(crate) fn as_slice(&self) -> &[Order]
        ensures { result.now ≡ self.now }
    {
        self.orders.as_slice()
    }

    /// The place of the oldest command, as it came, that goes out to the line so.
    pub(crate) fn come(&self, sent: Order) -> Option<usize>
        ensures { result ≡ spec.come sent self.now }
    {
        self.orders
            .as_slice()
            .iter()
            .position(|came| came.goes_out_as(sent))
    }

    /// The place of the oldest command that went out, which came so.
    pub(crate) fn sent(&self, came: Order) -> Option<usize>
        ensures { result ≡ spec.sent came self.now }
    {
        self.orders
            .as_slice()
            .iter()
            .position(|sent| came.goes_out_as(*sent))
    }

    /// One more, as far as there is place.
    pub(crate) fn add(&mut self, order: Order)
        ensures { self.new ≡ spec.one_behind order self.old }
    {
        let _ = self.orders.try_push(order);
    }

    /// The one at this place is taken out.
    pub(crate) fn take_out(&mut self, place: usize)
        ensures { self.new ≡ spec.without place self.old }
    {
        if place < self.orders.len() {
            self.orders.remove(place);
        }
    }

    pub(crate) fn clear(&mut self)
        ensures { self.new ≡ [] }
    {
        self.orders.clear();
    }
}
