// Places for tickets.
ghost use Rattle.std.specs.Prelude.{◌≡◌, ◌<◌, IfOk, IfSome, IfNone, Some, None, slice_index_or, slice_set};
ghost use Rattle.planning.specs.Places.{places_of, ticket_of, without, NoneHeld, FirstHeld};

use crate::HeldTickets;
use board::Ticket;
use std::alloc::{AllocError, Global};

// As many places as a board gives numbers.
const PLACES: usize = 128;

impl HeldTickets {
    // Places that hold no ticket. They are pushed one by one, since the methods that fill a list ask for elements that can be let go, which a
    // ticket can't.
    pub(crate) fn new(heap: Global) -> Result<HeldTickets, AllocError>
        ensures { IfOk result (λ t. NoneHeld (places_of t)) }
    {
        let mut places = Vec::with_capacity(heap, PLACES)?;
        for _ in 0..PLACES {
            places.push_reserved(None);
        }
        Ok(HeldTickets { places })
    }

    // Puts a ticket into the place of its number, which is there and empty.
    pub(crate) fn put(&mut self, ticket: Ticket)
        requires inside { ticket.number < 128 }
        requires empty { slice_index_or (places_of self.old) ticket.number None ≡ None }
        ensures { places_of self.new ≡ slice_set (places_of self.old) ticket.number (Some ticket) }
    {
        let place = &mut self.places[usize::from(ticket.number())];
        match place.replace(ticket) {
            None => {}
            Some(_) => unreachable(),
        }
    }

    // Takes the ticket of a mark and a number out of its place, where it is held; a ticket of another mark stays in its place.
    pub(crate) fn take(&mut self, mark: u16, number: usize) -> Option<Ticket>
        ensures ticket { result ≡ ticket_of (places_of self.old) mark number }
        ensures after { places_of self.new ≡ without (places_of self.old) mark number }
    {
        self.places
            .get_mut(number)?
            .take_if(|ticket| ticket.mark() == mark)
    }

    // Mark and number of the ticket that is held for the lowest number.
    pub(crate) fn lowest(&self) -> Option<(u16, u16)>
        ensures none { IfNone result (NoneHeld (places_of self.now)) }
        ensures first { IfSome result (FirstHeld (places_of self.now)) }
    {
        self.places.iter().find_map(|place| {
            place
                .as_ref()
                .map(|ticket| (ticket.mark(), u16::from(ticket.number())))
        })
    }

    // Ends places that hold no ticket. They are popped one by one, since a `for` over a list asks for elements that can be let go.
    pub(crate) fn destroy(self)
        requires { NoneHeld (places_of self) }
    {
        let HeldTickets { mut places } = self;
        while let Some(place) = places.pop() {
            match place {
                None => {}
                Some(_) => unreachable(),
            }
        }
        places.destroy_empty();
    }
}
