//! The standard's names of types and causes.
ghost use Rattle.std.specs.Prelude.{◌≡◌};
ghost use Rattle.std.specs.Option.{option_copied};
ghost use Rattle.elements.specs.Names.{type_name as name_of_type, report_name as name_of_report};
ghost use Rattle.elements.specs.Names.{other_name as name_of_other, cause_name as name_of_cause};

/// The name of a type identification (IEC 60870-5-101, 7.2.1; IEC 60870-5-104, 8). `None` if the
/// standards define none.
pub fn type_name(kind: u8) -> Option<&'static str>
    ensures { option_copied result ≡ name_of_type kind }
{
    if kind < 45 {
        report_name(kind)
    } else {
        other_name(kind)
    }
}

/// The name of a type of process information in monitor direction.
#[tactic(auto, unfolding(crate::specs::Names::report_name))]
fn report_name(kind: u8) -> Option<&'static str>
    ensures { option_copied result ≡ name_of_report kind }
{
    Some(match kind {
        1 => "M_SP_NA_1",
        2 => "M_SP_TA_1",
        3 => "M_DP_NA_1",
        4 => "M_DP_TA_1",
        5 => "M_ST_NA_1",
        6 => "M_ST_TA_1",
        7 => "M_BO_NA_1",
        8 => "M_BO_TA_1",
        9 => "M_ME_NA_1",
        10 => "M_ME_TA_1",
        11 => "M_ME_NB_1",
        12 => "M_ME_TB_1",
        13 => "M_ME_NC_1",
        14 => "M_ME_TC_1",
        15 => "M_IT_NA_1",
        16 => "M_IT_TA_1",
        17 => "M_EP_TA_1",
        18 => "M_EP_TB_1",
        19 => "M_EP_TC_1",
        20 => "M_PS_NA_1",
        21 => "M_ME_ND_1",
        30 => "M_SP_TB_1",
        31 => "M_DP_TB_1",
        32 => "M_ST_TB_1",
        33 => "M_BO_TB_1",
        34 => "M_ME_TD_1",
        35 => "M_ME_TE_1",
        36 => "M_ME_TF_1",
        37 => "M_IT_TB_1",
        38 => "M_EP_TD_1",
        39 => "M_EP_TE_1",
        40 => "M_EP_TF_1",
        _ => return None,
    })
}

/// The name of any other type.
#[tactic(auto, unfolding(crate::specs::Names::other_name))]
fn other_name(kind: u8) -> Option<&'static str>
    ensures { option_copied result ≡ name_of_other kind }
{
    Some(match kind {
        45 => "C_SC_NA_1",
        46 => "C_DC_NA_1",
        47 => "C_RC_NA_1",
        48 => "C_SE_NA_1",
        49 => "C_SE_NB_1",
        50 => "C_SE_NC_1",
        51 => "C_BO_NA_1",
        58 => "C_SC_TA_1",
        59 => "C_DC_TA_1",
        60 => "C_RC_TA_1",
        61 => "C_SE_TA_1",
        62 => "C_SE_TB_1",
        63 => "C_SE_TC_1",
        64 => "C_BO_TA_1",
        70 => "M_EI_NA_1",
        100 => "C_IC_NA_1",
        101 => "C_CI_NA_1",
        102 => "C_RD_NA_1",
        103 => "C_CS_NA_1",
        104 => "C_TS_NA_1",
        105 => "C_RP_NA_1",
        106 => "C_CD_NA_1",
        107 => "C_TS_TA_1",
        110 => "P_ME_NA_1",
        111 => "P_ME_NB_1",
        112 => "P_ME_NC_1",
        113 => "P_AC_NA_1",
        120 => "F_FR_NA_1",
        121 => "F_SR_NA_1",
        122 => "F_SC_NA_1",
        123 => "F_LS_NA_1",
        124 => "F_AF_NA_1",
        125 => "F_SG_NA_1",
        126 => "F_DR_TA_1",
        127 => "F_SC_NB_1",
        _ => return None,
    })
}

/// The name of a cause of transmission (IEC 60870-5-101, 7.2.3), a number of 6 bits. `None` if the
/// standard defines none.
#[tactic(auto, unfolding(crate::specs::Names::cause_name))]
pub fn cause_name(cause: u8) -> Option<&'static str>
    ensures { option_copied result ≡ name_of_cause cause }
{
    Some(match cause {
        1 => "periodic",
        2 => "background scan",
        3 => "spontaneous",
        4 => "initialised",
        5 => "requested",
        6 => "activation",
        7 => "activation con",
        8 => "deactivation",
        9 => "deactivation con",
        10 => "activation term",
        11 => "return by remote command",
        12 => "return by local command",
        13 => "file transfer",
        20 => "station interrogation",
        21 => "group 1 interrogation",
        22 => "group 2 interrogation",
        23 => "group 3 interrogation",
        24 => "group 4 interrogation",
        25 => "group 5 interrogation",
        26 => "group 6 interrogation",
        27 => "group 7 interrogation",
        28 => "group 8 interrogation",
        29 => "group 9 interrogation",
        30 => "group 10 interrogation",
        31 => "group 11 interrogation",
        32 => "group 12 interrogation",
        33 => "group 13 interrogation",
        34 => "group 14 interrogation",
        35 => "group 15 interrogation",
        36 => "group 16 interrogation",
        37 => "general counter request",
        38 => "group 1 counter request",
        39 => "group 2 counter request",
        40 => "group 3 counter request",
        41 => "group 4 counter request",
        44 => "unknown type",
        45 => "unknown cause",
        46 => "unknown common address",
        47 => "unknown object address",
        _ => return None,
    })
}
