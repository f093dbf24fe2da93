//! Texts by worked examples: literal octets and words.
ghost use Rattle.std.specs.Prelude.{◌≡◌, ◌∷◌, ◌++◌, [], codes, true, Some};
ghost use Rattle.status.specs.Json.{json_before_hour, json_before_stations};
ghost use Rattle.status.specs.Json.{json_of_station};
ghost use Rattle.status.specs.Html as html;
ghost use Rattle.status.specs.Metrics.{families_text, quality_text, text_of_info};
ghost use Rattle.status.specs.Table as table;
ghost use Rattle.status.specs.Texts.{syncs_text};
ghost use Rattle.status.specs.Words.{thousandths};
ghost use Rattle.status.specs.declared.html.TheConstants.{STATIONS};
ghost use Rattle.runlog.specs.declared.names.Subject.TheVariants as subject;
ghost use Rattle.runlog.specs.declared.severity.Severity.TheVariants as severity;
ghost use Rattle.status.specs.declared.snapshot.EventView.{EventView};
ghost use Rattle.status.specs.declared.snapshot.Keeping.TheVariants.{NotKept};
ghost use Rattle.status.specs.declared.snapshot.LinkState.TheVariants as stands;
ghost use Rattle.status.specs.declared.snapshot.Snapshot.{Snapshot};
ghost use Rattle.status.specs.declared.snapshot.StationView.{StationView};
ghost use Rattle.status.specs.declared.words.Marks.TheVariants.{Html};

/// Which number stands under which name, in JSON and for Prometheus: of a station, and of all
/// else; and a station's row in the table and on the page for a person, with the heads of the
/// latter, a line of the log there, and marks of the chart. Each number is another one.
pub fn pages_by_example()
    ensures station { (s : StationView) → s.name.now ≡ codes "A<\"B\\" →
        json_of_station (record s {
          address = 1;
          common_address = 2;
          standing = stands.Silent;
          since_ms = 3;
          last_report_ms = Some 4;
          reports = 5;
          skipped = 6;
          gaps = 7;
          commands = 8;
          requests = record { sent = 9; repeats = 10; unanswered = 11 };
          spoilt = 12;
          late = 13;
        })
        ≡ codes "{\"name\":\"A<\\\"B\\\\\",\"address\":1,\"common_address\":2,"
        ++ codes "\"standing\":\"no reply\",\"since_ms\":3,\"last_report_ms\":4,\"reports\":5,"
        ++ codes "\"skipped\":6,\"gaps\":7,\"commands\":8,\"requests\":9,\"repeats\":10,"
        ++ codes "\"unanswered\":11,\"spoilt\":12,\"late\":13}" }
    ensures centre { (s : Snapshot) →
        json_before_hour (record s {
          centre = record s.centre { is_started = true; since_ms = 1; unacknowledged = 2 };
          queue = record s.queue { taken = 3; places = 4; oldest_ms = Some 5 };
        })
        ≡ codes ",\"started\":true,\"since_ms\":1,\"unacknowledged\":2},\"queue\":{"
        ++ codes "\"taken\":3,\"places\":4,\"oldest_ms\":5,\"hour\":[" }
    ensures state { (s : Snapshot) →
        json_before_stations (record s {
          keeping = NotKept;
          syncs = record { latest_ms = 4; count = 1; last_ms = 2; longest_ms = 3 };
        })
        ≡ codes "]},\"state\":\"not kept\",\"latest_sync_ms\":4,\"slow_syncs\":{\"count\":1,"
        ++ codes "\"last_ms\":2,\"longest_ms\":3},\"stations\":[" }
    ensures syncs { syncs_text (codes "slow syncs: ") (record {
      latest_ms = 4;
      count = 1;
      last_ms = 2;
      longest_ms = 3;
    })
        ≡ codes "slow syncs: 1, the last 2 ms, the longest 3 ms" }
    ensures seconds { (thousandths 305 ≡ codes "0.305") × (thousandths 12007 ≡ codes "12.007") }
    ensures families { (s : StationView) →
        families_text (record s {
          address = 1;
          standing = stands.Up;
          reports = 5;
          skipped = 6;
          gaps = 7;
          commands = 8;
        } ∷ [])
        ≡ codes "# HELP telegate_station_up Whether the outstation answers.\n"
        ++ codes "# TYPE telegate_station_up gauge\ntelegate_station_up{station=\"1\"} 1\n"
        ++ codes "# HELP telegate_station_reports_total Reports that the outstation has given.\n"
        ++ codes "# TYPE telegate_station_reports_total counter\n"
        ++ codes "telegate_station_reports_total{station=\"1\"} 5\n"
        ++ codes "# HELP telegate_station_skipped_total Reports of the outstation that could not"
        ++ codes " be used.\n# TYPE telegate_station_skipped_total counter\n"
        ++ codes "telegate_station_skipped_total{station=\"1\"} 6\n"
        ++ codes "# HELP telegate_station_gaps_total How often reports of the outstation may have"
        ++ codes " been lost.\n# TYPE telegate_station_gaps_total counter\n"
        ++ codes "telegate_station_gaps_total{station=\"1\"} 7\n"
        ++ codes "# HELP telegate_station_commands_total Commands that went to the outstation.\n"
        ++ codes "# TYPE telegate_station_commands_total counter\n"
        ++ codes "telegate_station_commands_total{station=\"1\"} 8\n" }
    ensures quality { (s : StationView) →
        quality_text (record s {
          address = 1;
          last_report_ms = Some 4500;
          requests = record { sent = 9; repeats = 10; unanswered = 11 };
          spoilt = 12;
          late = 13;
        } ∷ [])
        ≡ codes "# HELP telegate_station_last_report_seconds The moment of the last report, 0 "
        ++ codes "before the first.\n# TYPE telegate_station_last_report_seconds gauge\n"
        ++ codes "telegate_station_last_report_seconds{station=\"1\"} 4\n"
        ++ codes "# HELP telegate_station_requests_total Requests to the outstation.\n"
        ++ codes "# TYPE telegate_station_requests_total counter\n"
        ++ codes "telegate_station_requests_total{station=\"1\"} 9\n"
        ++ codes "# HELP telegate_station_repeats_total Requests that were the one before again."
        ++ codes "\n# TYPE telegate_station_repeats_total counter\n"
        ++ codes "telegate_station_repeats_total{station=\"1\"} 10\n"
        ++ codes "# HELP telegate_station_unanswered_total Requests without an answer to any of "
        ++ codes "their repeats.\n# TYPE telegate_station_unanswered_total counter\n"
        ++ codes "telegate_station_unanswered_total{station=\"1\"} 11\n"
        ++ codes "# HELP telegate_station_spoilt_total How often something else came than an "
        ++ codes "answer.\n# TYPE telegate_station_spoilt_total counter\n"
        ++ codes "telegate_station_spoilt_total{station=\"1\"} 12\n"
        ++ codes "# HELP telegate_station_late_total Answers that came when their exchange was "
        ++ codes "over.\n# TYPE telegate_station_late_total counter\n"
        ++ codes "telegate_station_late_total{station=\"1\"} 13\n" }
    ensures info { (s : StationView) → s.name.now ≡ codes "A\"\\" →
        text_of_info (record s { address = 1; common_address = 2 })
        ≡ codes "telegate_station_info{station=\"1\",common_address=\"2\",name=\"A\\\"\\\\\"} 1\n" }
    ensures row { (s : StationView) → s.name.now ≡ codes "Mill" →
        table.text_of_row 10000 (record s {
          address = 1;
          common_address = 2;
          standing = stands.Silent;
          since_ms = 3000;
          last_report_ms = Some 4000;
          reports = 5;
          skipped = 6;
          gaps = 7;
          commands = 8;
        })
        ≡ codes "      1      2  no reply          7 s       "
        ++ codes "    6 s          5        6     7         8  Mill\n" }
    ensures cells { (s : StationView) → s.name.now ≡ codes "A<\"&" →
        html.text_of_row 10000 (record s {
          address = 1;
          common_address = 2;
          standing = stands.Silent;
          since_ms = 3000;
          last_report_ms = Some 4000;
          reports = 5;
          skipped = 6;
          gaps = 7;
          commands = 8;
        })
        ≡ codes "<tr class=\"no reply\"><td>A&lt;&quot;&amp;</td><td class=\"n\">1</td>"
        ++ codes "<td class=\"n\">2</td><td class=\"s\">no reply</td>"
        ++ codes "<td class=\"n\">7 s  </td><td class=\"n\">6 s  </td>"
        ++ codes "<td class=\"n\">5</td><td class=\"n\">6</td><td class=\"n\">7</td>"
        ++ codes "<td class=\"n\">8</td></tr>\n" }
    ensures event { (s : Snapshot) (e : EventView) → s.name.now ≡ codes "A<" →
        e.text.bytes ≡ codes "line lost" →
        html.text_of_event (record s { now_ms = 10000; wall_ms = Some 86399000 }) (record e {
          moment_ms = 9000;
          severity = severity.Error;
          about = subject.Line;
        })
        ≡ codes "<tr class=\"error\"><td class=\"n\">23:59:58</td><td class=\"n\">1 s  </td>"
        ++ codes "<td class=\"e\">line lost [A&lt;]</td></tr>\n" }
    // At 13:42 the chart has 13:30 where 12 minutes have passed, and 13:00 as a full hour.
    ensures marks { (html.mark_text 822 0 ≡ codes "<span style=\"left:80%\">13:30</span>")
        × (html.mark_text 822 30 ≡ codes "<span class=\"h\" style=\"left:30%\">13:00</span>") }
    ensures heads { STATIONS.now
        ≡ codes "</table>\n<h2>Stations</h2>\n<p class=\"more\">more columns: to the side</p>\n"
        ++ codes "<div class=\"scroll\"><table class=\"stations\">\n<tr><th>name</th>"
        ++ codes "<th>address</th><th>common address</th><th>standing</th><th>since</th>"
        ++ codes "<th>last report</th><th>reports</th><th>skipped</th><th>gaps</th>"
        ++ codes "<th>commands</th></tr>\n" }
{}
