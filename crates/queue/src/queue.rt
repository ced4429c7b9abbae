// What a queue holds.
ghost use Rattle.std.specs.Prelude.{◌≤◌, vec_len, vec_capacity};

use carrier::datagram::Datagram;

// Up to 512 frames, the oldest first. Their memory is had when the queue is
// made, so that none is wanted later.
#[derive(Drop)]
pub struct Queue {
    pub frames: Vec<Datagram>,
    ghost few: { vec_len frames ≤ 512 },
    ghost room: { 512 ≤ vec_capacity frames },
}
