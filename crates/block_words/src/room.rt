// Room in what a call is lent (document 02, request (iv)): 45.
ghost use Rattle.std.specs.Prelude.{◌≡◌};
ghost use Rattle.block_image.specs.Refusals.{has_room};

// 45: room for what is written, and for how many.
#[tactic(auto, unfolding(block_image::specs::Refusals::has_room))]
pub fn has_room(need: usize, room: usize, slots: usize) -> bool
    ensures { result ≡ has_room need room slots }
{
    need <= room && 1 <= slots
}
