//! What `opalport judge --help` says of transcripts.

/// The form of a transcript, what is told of it, and the statuses.
pub(crate) const TRANSCRIPTS: &str = "\
A transcript is a script, as `opalport run --help` tells its lines. Behind a line stand the answers
that the other drive gave to it, each as a line
  = ANSWER                          as `opalport run` prints it: ok .., data .., fail 51 04
A line without answers is not judged: what the drive said is taken for what the model says. Audit
lines are the model's, and may be left out. Lines that print nothing have no answer.

It prints, for each line with answers that are not the model's:
  line N: allowed: FREEDOM          they differ by this freedom alone
  line N: wrong: the drive said X; it must say Y
and behind a wrong one the reasons of a refusal, as `opalport run --explain` tells them. At the end:
  judged N answers: A agree, F by a freedom, W wrong

Freedoms, which the standards leave to a drive:
  error-bits       bits of the Error field without a meaning, beside ABRT (ACS-3, section 6.3)
  blank-sectors    what sectors hold that nothing has written, or that an erasure wiped: the same
                   again until a line may have changed it
  vendor-bytes     bytes 16 to 47 of Level 0 discovery (TCG Core 2.01, section 3.3.6)
  identity         serial number, firmware, model, World Wide Name in IDENTIFY DEVICE data (ACS-3)
  session-numbers  the number that the drive gives a session (TCG Core 2.01, section 5.2.3)
  com-ids          the first of the ComIDs, and how many there are, in Level 0 (Opal SSC 2.01)
  random-bytes     the bytes that Random gives (TCG Core 2.01, section 5.6.4.1)
  properties       the values that the TPer tells by Properties (Opal SSC 2.01, section 4.1.1.1)

Status: 0 no answer is wrong, 1 one is, 2 the script of the transcript does not run to its end, bad
usage or an error";
