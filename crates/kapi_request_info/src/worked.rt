//! Worked rows of the definitions, as clauses that the check computes.

ghost use Rattle.std.specs.Prelude.{◌≡◌, codes, [], ◌∷◌};
ghost use Rattle.kapi_http.specs.declared.message.Method.TheVariants.{Get, Put, Delete};
ghost use Rattle.kapi_rules.specs.declared.point.Point.TheVariants as point;
ghost use Rattle.kapi_request_info.specs.Faults.{bad_path, bad_escape, bad_query};
ghost use Rattle.kapi_request_info.specs.Attributes.{info};

/// Some targets with their attributes or faults.
pub fn worked_rows()
    ensures status { info Put (codes "/api/v1/namespaces/n/status") ≡ Ok (record {
      namespace = codes "n";
      point = point.Resource (record { verb = codes "update"; group = []; resource = codes "namespaces"; subresource = codes "status"; name = codes "n" });
      version = codes "v1";
      parts = 3;
      query = [];
    }) }
    ensures watch { info Get (codes "/apis/apps/v1/namespaces/n/deployments?watch=1&fieldSelector=metadata.name%3Dd") ≡ Ok (record {
      namespace = codes "n";
      point = point.Resource (record { verb = codes "watch"; group = codes "apps"; resource = codes "deployments"; subresource = []; name = codes "d" });
      version = codes "v1";
      parts = 1;
      query = record { key = codes "watch"; value = codes "1" } ∷ record { key = codes "fieldSelector"; value = codes "metadata.name=d" } ∷ [];
    }) }
    ensures collection { info Delete (codes "/api/v1/namespaces/n/pods/") ≡ Ok (record {
      namespace = codes "n";
      point = point.Resource (record { verb = codes "deletecollection"; group = []; resource = codes "pods"; subresource = []; name = [] });
      version = codes "v1";
      parts = 1;
      query = [];
    }) }
    ensures group { info Get (codes "/apis/apps") ≡ Ok (record {
      namespace = [];
      point = point.Url (record { verb = codes "get"; path = codes "/apis/apps" });
      version = [];
      parts = 0;
      query = [];
    }) }
    ensures absolute { info Get (codes "http://h") ≡ info Get (codes "/") }
    ensures empty { info Get (codes "/api/v1//pods") ≡ Err bad_path }
    ensures slash { info Get (codes "/a%2Fb") ≡ Err bad_path }
    ensures path_first { info Get (codes "/%zz%2F") ≡ Err bad_path }
    ensures escape { info Get (codes "/a%f") ≡ Err bad_escape }
    ensures query { info Get (codes "/api/v1/pods?watch=yes") ≡ Err bad_query }
{}
