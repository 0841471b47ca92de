// Laws of the form. They do nothing.

ghost use Rattle.std.specs.Prelude.{◌≡◌, Ok};
ghost use Rattle.rb_meaning_bytes.specs.formats.Messages.{Sent};
ghost use Rattle.rb_json.specs.Requests.{request_of};
ghost use Rattle.rb_json.specs.Writes.{request_data};
ghost use Rattle.rb_json.specs.Formed.{HasForm};
ghost use Rattle.rb_json.specs.Answering.{RepliesAsTheWire};

use rb_meaning_bytes::script_payloads_mean_one_thing;

/// The JSON value of a request is of the form, and gives the request.
pub fn what_is_written_reads_back()
    ensures { (x : Sent) → HasForm x → request_of (request_data x) ≡ Ok x }
{}

/// Wherever a payload spells a script with its values in version 2, its answer on the wire says what the reply in JSON says, and
/// leaves the same table.
pub fn the_reply_is_that_of_the_wire()
    ensures { RepliesAsTheWire }
{
    script_payloads_mean_one_thing();
}
