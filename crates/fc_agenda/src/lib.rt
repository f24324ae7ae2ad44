//! What is still to be asked, and how a history goes on by it. There is no code here.
//!
//! An agenda is all that is still to be asked: the lines of a session, the requests of a line, the seconds that pass, or
//! what several actors ask beside each other. A record of rules (`specs/Rules`) says what an agenda asks next, when an
//! answer is right, what the agenda is behind it, and when it goes on without one; `specs/Goes` says by them how a history
//! answers an agenda: whole, the first of it, or up to one more request.
#![tactic(auto)]
