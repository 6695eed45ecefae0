//! Laws of cutting requests, each the clause of a function that does nothing.
ghost use Rattle.std.specs.Prelude.{◌≡◌, ◌≢◌, ◌∷◌, ◌+◌, codes, ◌<◌, ◌≤◌, ◌++◌, List, ℕ, [], IsSome, None, Some, drop, length, take};
ghost use Rattle.std.specs.List.{concat, flat_map};
ghost use Rattle.httparse.specs.Grammar.{HasNoRequest, IsRequestHead, NeverHasRequest, ReadsRequest, RequestHead, print_request};
ghost use Rattle.kapi_http.specs.ChunkText.{AreChunks, body_text};
ghost use Rattle.kapi_http.specs.ChunkedBody.{IsBody, SentChunk, data_of};
ghost use Rattle.kapi_http.specs.Chunks.{chunked, joined, no_chunks};
ghost use Rattle.kapi_http.specs.Rules.{checked};
ghost use Rattle.kapi_http.specs.declared.chunks.ChunkState.TheVariants.{Whole};
ghost use Rattle.kapi_http.specs.declared.message.Method.{Method};
ghost use Rattle.kapi_http.specs.declared.rules.Framing.{Framing};
ghost use Rattle.kapi_http.specs.declared.rules.Framing.TheVariants.{Chunked};
ghost use Rattle.kapi_http.specs.Cut.{Begins, accepted, cut, fault_of, first, reach, refused, request_of, settled, settled_of, taken, waits, with_request};
ghost use Rattle.kapi_http.specs.Head.{Says, head_of, says};
ghost use Rattle.kapi_http.specs.Requests.{AreCut, HasEmptyLine, HasHead, IsRequest, IsTooLarge};
ghost use Rattle.kapi_http.specs.declared.message.HttpFault.{HttpFault};
ghost use Rattle.kapi_http.specs.declared.message.Method.TheVariants.{Put};
ghost use Rattle.kapi_http.specs.declared.message.Refusal.{Refusal};
ghost use Rattle.kapi_http.specs.declared.message.Refusal.TheVariants.{HeadTooLarge, NoHead, Version};
ghost use Rattle.kapi_http.specs.declared.message.HttpRequest.{HttpRequest};

/// The head of the bytes as a function is the head of the grammar, both ways.
pub fn heads_are_those_of_the_grammar()
    ensures read { (bytes : List ℕ) → IsSome (head_of bytes)
        → (h : RequestHead) × ReadsRequest bytes h [] × (head_of bytes ≡ Some (says h)) }
    ensures whole { (bytes : List ℕ) (h : RequestHead) → ReadsRequest bytes h [] → head_of bytes ≡ Some (says h) }
{}

/// For any bytes, a head ends where the grammar ends it: what is taken for a head is one, within the limits, and where
/// the bytes begin with one it is taken, whatever follows (RFC 9112 sections 2.2, 3 and 5).
pub fn heads_end_where_the_grammar_ends()
    ensures accepts { (bytes : List ℕ) (n : ℕ) (h : Says) (method : Method) (framing : Framing)
        → settled bytes ≡ accepted n h method framing
        → (head : RequestHead) × HasHead bytes n head × (h ≡ says head) × (checked h ≡ Ok (method, framing)) }

    // a refusal by the rules is one of a head that was read
    ensures refuses { (bytes : List ℕ) (n : ℕ) (method : List ℕ) (why : Refusal) → settled bytes ≡ refused n method why
        → why ≢ NoHead → why ≢ HeadTooLarge
        → (head : RequestHead) × HasHead bytes n head × (method ≡ head.method) × (checked (says head) ≡ Err why) }

    // the other findings: there is no head, none within the limits, or none yet; that is known at an empty line
    ensures never { (bytes : List ℕ) (n : ℕ) (method : List ℕ) → settled bytes ≡ refused n method NoHead
        → NeverHasRequest bytes }
    ensures large { (bytes : List ℕ) (n : ℕ) (method : List ℕ) → settled bytes ≡ refused n method HeadTooLarge
        → (more rest : List ℕ) (head : RequestHead) → ReadsRequest (bytes ++ more) head rest → IsTooLarge head }
    ensures pending { (bytes : List ℕ) → settled bytes ≡ waits
        → (length bytes < 16384) × ¬ (HasEmptyLine bytes) × HasNoRequest bytes }
    ensures unended { (bytes : List ℕ) → length bytes < 16384 → ¬ (HasEmptyLine bytes) → settled bytes ≡ waits }

    // where the bytes begin with a head, it is read
    ensures whole { (bytes : List ℕ) (n : ℕ) (head : RequestHead) → HasHead bytes n head
        → settled bytes ≡ settled_of (take n bytes) (Some (says head)) }
{}

/// A head printed by the grammar within the limits is read, whatever follows it.
pub fn printed_heads_are_read()
    ensures { (h : RequestHead) (more : List ℕ) → IsRequestHead h → length (print_request h) ≤ 16384 → length h.fields ≤ 64
        → settled (print_request h ++ more) ≡ settled_of (print_request h) (Some (says h)) }
{}

/// A body printed in chunks is read as these chunks and no others, whatever follows it. The same holds of a request
/// whose printed head announces a chunked body (RFC 9112 section 7.1).
pub fn printed_chunks_are_read()
    ensures whole { (parts : List (List ℕ)) (more : List ℕ) → AreChunks parts
        → chunked no_chunks (body_text parts ++ more)
        ≡ record { spot = Whole; at = length (body_text parts); sum = length (concat parts) } }
    ensures body { (parts : List (List ℕ)) → AreChunks parts → joined no_chunks (body_text parts) ≡ concat parts }
    ensures request { (h : RequestHead) (method : Method) (parts : List (List ℕ)) (more : List ℕ)
        → IsRequestHead h → length (print_request h) ≤ 16384 → length h.fields ≤ 64
        → checked (says h) ≡ Ok (method, Chunked) → AreChunks parts
        → first (print_request h ++ (body_text parts ++ more))
        ≡ Some (Ok (request_of (says h) method (concat parts) (length (print_request h) + length (body_text parts)))) }
{}

/// What is read as a whole body in chunks is one, and what is one is read so, whatever follows it: some chunks, each of
/// them the digits of its size and its data, and the end (RFC 9112 section 7.1).
pub fn bodies_in_chunks_are_read()
    ensures read { (bytes : List ℕ) → (chunked no_chunks bytes).spot ≡ Whole → (chunked no_chunks bytes).at ≡ length bytes
        → (chunks : List SentChunk) × (size : List ℕ) × IsBody bytes chunks size × (joined no_chunks bytes ≡ data_of chunks) }
    ensures whole { (bytes more : List ℕ) (chunks : List SentChunk) (size : List ℕ) → IsBody bytes chunks size
        → chunked no_chunks (bytes ++ more) ≡ record { spot = Whole; at = length bytes; sum = length (data_of chunks) } }
    ensures joins { (bytes : List ℕ) (chunks : List SentChunk) (size : List ℕ) → IsBody bytes chunks size
        → joined no_chunks bytes ≡ data_of chunks }

    // a request whose head says that its body comes in chunks has such a body, and its data
    ensures request { (bytes : List ℕ) (n : ℕ) (h : Says) (method : Method) (r : HttpRequest)
        → settled bytes ≡ accepted n h method Chunked → first bytes ≡ Some (Ok r)
        → (body more : List ℕ) × (chunks : List SentChunk) × (size : List ℕ) × IsBody body chunks size
        × (drop n bytes ≡ body ++ more) × (r ≡ request_of h method (data_of chunks) (n + length body)) }
{}

/// For any bytes, what is read as a request is one by the grammar of heads and the forms of bodies, and what is one is
/// read, whatever follows it; so no bytes begin with two requests.
pub fn requests_are_those_of_the_grammar()
    ensures read { (bytes : List ℕ) (r : HttpRequest) → first bytes ≡ Some (Ok r)
        → (text more : List ℕ) × IsRequest text r × (bytes ≡ text ++ more) }
    ensures whole { (text more : List ℕ) (r : HttpRequest) → IsRequest text r → first (text ++ more) ≡ Some (Ok r) }
    ensures one { (text other more rest : List ℕ) (r s : HttpRequest) → IsRequest text r → IsRequest other s
        → text ++ more ≡ other ++ rest → (text ≡ other) × (r ≡ s) }
{}

/// The requests cut from any bytes are those of the texts at their front, one behind the other, up to the first bytes
/// that begin with none.
pub fn texts_of_requests_are_cut()
    ensures read { (bytes : List ℕ) → AreCut bytes (cut bytes).requests }
    ensures whole { (bytes : List ℕ) (requests : List HttpRequest) → AreCut bytes requests → (cut bytes).requests ≡ requests }
{}

/// What is decided stays decided, whatever follows; a request has a byte at least and lies within the bytes.
pub fn items_stay()
    ensures stays { (bytes more : List ℕ) → IsSome (first bytes) → first (bytes ++ more) ≡ first bytes }
    ensures some { (bytes : List ℕ) (r : HttpRequest) → first bytes ≡ Some (Ok r) → 0 < r.length }
    ensures within { (bytes : List ℕ) (r : HttpRequest) → first bytes ≡ Some (Ok r) → r.length ≤ length bytes }
{}

/// What is cut from a front of a text is a beginning of what is cut from the whole.
pub fn fronts_are_cut_alike()
    ensures { (bytes more : List ℕ) → Begins (cut bytes) (cut (bytes ++ more)) }
{}

/// No request is hidden in another: what is cut from a request's bytes and others behind them is that request, and then
/// what is cut from the others.
pub fn requests_are_cut_apart()
    ensures { (bytes more : List ℕ) (r : HttpRequest) → first bytes ≡ Some (Ok r) → r.length ≡ length bytes
        → cut (bytes ++ more) ≡ with_request r (cut more) }
{}

/// Feeding a text in any pieces, and taking all that is whole after each, returns what the whole text is cut to.
pub fn pieces_are_cut_alike()
    ensures { (pieces : List (List ℕ)) → taken [] pieces ≡ cut (flat_map (λ piece. piece) pieces) }
{}

/// A fault is decided on the shortest front that shows it: on the whole head, on 16,384 bytes without its end, or on
/// the bytes of chunks up to the first wrong one or the first above a limit.
pub fn faults_are_decided_early()
    ensures shown { (bytes : List ℕ) (f : HttpFault) → first bytes ≡ Some (Err f)
        → first (take (reach bytes) bytes) ≡ Some (Err f) }
    ensures waits { (bytes : List ℕ) (k : ℕ) → k < reach bytes → first (take k bytes) ≡ None }
{}

/// What two texts begin with, computed: a request with a body of two bytes, and one of HTTP/1.0.
pub fn worked_texts()
    ensures request { first (codes "\nPUT /x HTTP/1.1\r\nHost: a\r\nconnection: x, Close\r\nContent-Length: 02\r\n\r\nabc")
        ≡ Some (Ok (request_of (record {
          method = codes "PUT";
          target = codes "/x";
          minor = 1;
          fields = (codes "Host", codes "a") ∷ (codes "connection", codes "x, Close") ∷ (codes "Content-Length", codes "02") ∷ [];
        })
        Put (codes "ab") 73)) }
    ensures fault { first (codes "HEAD / HTTP/1.0\r\n\r\n") ≡ Some (Err (fault_of (codes "HEAD") Version)) }
    ensures unfinished { first (codes "GET / HTTP/1.1\r\nHost: a\r\n\r") ≡ None }
{}
