//! Arcs of a tape and the contours of a CL file. Each arc among the acts that records ask for is that of a leg of a
//! contour: it goes from where its leg starts to where it ends, about the centre of its drive surface, in its sense. And
//! every point of it stays by the leg: it is in the band of the drive surface, and past the edge of the stop by at most
//! the leg's slack and the width of that band. Such arcs can be written, too.
//!
//! These are laws, which the promises of parts and of certificates name; there is nothing to call.
#![tactic(auto)]
